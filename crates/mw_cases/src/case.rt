/// The part of a case that stands behind so many marks ` | `, nothing where there are fewer.
pub fn part(case: &str, place: usize) -> &str {
    case.split(" | ").nth(place).unwrap_or("")
}
