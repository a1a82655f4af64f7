//! The rules of `Clockwork` as those of a closure.
ghost use Rattle.std.specs.Prelude.{◌≤◌, length};
ghost use Rattle.std.specs.List.{AllZip};
ghost use Rattle.mw_native.specs.Told.{IsNamed};
ghost use Rattle.mw_clock.specs.Clockwork.{clock_rules};
ghost use Rattle.mw_clock.specs.Answers.{AnswersClock};

use mw_base::List;
use mw_native::Told;
use mw_rules::{Named, Ruling};

/// The rules that `ask` answers, beside what they name, for a world with so many gears. `ask`
/// answers each of its rules as its tables have it.
pub fn clock_told<F: Fn(u32, &[u32], &[bool]) -> bool>(
    gears: u32,
    named: List<Named>,
    ask: F,
) -> Told<F>
    requires names { AllZip IsNamed (clock_rules gears) named }
    requires few { length named ≤ 62 }
    requires answers { AnswersClock (F.pre ask) (F.post ask) gears }
    ensures { ⟦<Told<F> as Ruling>⟧.stands_for result (clock_rules gears) }
{
    Told::new(named, ask)
}
