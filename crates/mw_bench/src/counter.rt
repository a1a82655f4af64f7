ghost use Rattle.std.specs.Prelude.{⊤};

use mw_lock::Stands;

/// How many calls there were, as a number that wraps. A reply is that number after the call.
#[derive(Drop)]
pub struct Counter {
    pub calls: u64,
}

impl Stands for Counter {
    type Call = ();

    type Reply = u64;

    type Base = ();

    ghost base = { λ s. tt };

    ghost any_base = { tt };

    ghost replies = { λ b past call reply. ⊤ };

    ghost stands = { λ s past. ⊤ };

    fn act(&mut self, _call: ()) -> u64 {
        self.calls = self.calls.wrapping_add(1);
        self.calls
    }
}
