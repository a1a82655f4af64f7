use mw_base::Memory;

/// Why an operation fails.
#[derive(Clone, Copy)]
pub(crate) enum Fault {
    /// Its name, its operand or the value is another than stated.
    Bad,
    /// A number is outside its range.
    OutOfRange,
    /// Memory ran out.
    Memory,
}

impl From<Memory> for Fault {
    ghost use Rattle.std.specs.Prelude.{◌≡◌};
    ghost use Rattle.mw_storage.specs.declared.fault.Fault.TheVariants.{Memory as OutOfMemory};

    ghost from_gives = { λ _ e. e ≡ OutOfMemory };

    fn from(_error: Memory) -> Self {
        Fault::Memory
    }
}
