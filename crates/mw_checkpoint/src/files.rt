ghost use Rattle.std.specs.Prelude.{◌≡◌};
ghost use Rattle.mw_checkpoint.specs.Pair.{journal_at, other_of};

/// The three files of a pair room.
#[derive(Drop)]
pub struct Files<D> {
    /// The file CHOICE: a journal of bytes 0 and 1, of which the last names the journal that
    /// counts.
    pub choice: D,
    /// The journal 0, which counts where CHOICE names none.
    pub zero: D,
    /// The journal 1.
    pub one: D,
}

impl<D> Files<D> {
    /// CHOICE, the journal of a number, and the other one.
    pub fn split(self, named: u8) -> (D, D, D)
        ensures choice { result.0 ≡ self.choice }
        ensures chosen { result.1 ≡ journal_at named self }
        ensures other { result.2 ≡ journal_at (other_of named) self }
    {
        let Files { choice, zero, one } = self;
        if named == 0 {
            (choice, zero, one)
        } else {
            (choice, one, zero)
        }
    }

    /// The files of CHOICE, the journal of a number, and the other one.
    pub fn join(named: u8, choice: D, chosen: D, other: D) -> Files<D>
        ensures choice { result.choice ≡ choice }
        ensures chosen { journal_at named result ≡ chosen }
        ensures other { journal_at (other_of named) result ≡ other }
    {
        if named == 0 {
            Files {
                choice,
                zero: chosen,
                one: other,
            }
        } else {
            Files {
                choice,
                zero: other,
                one: chosen,
            }
        }
    }
}
