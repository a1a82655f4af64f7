ghost use Rattle.std.specs.Prelude.{◌≡◌};
ghost use Rattle.mw_edges.specs.Planned.{planned_of};

use mw_base::List;
use mw_disk::{CallLuck, CallPlan};
use std::io::{self, Read, Write};

/// A reader or a writer whose calls go as planned: they take fewer bytes, are interrupted, or fail.
/// It tells what the one within tells.
#[derive(Drop)]
pub struct Planned<T> {
    inner: T,
    plan: CallPlan,
}

impl<T> Planned<T> {
    /// Its calls go as listed, and those behind the list as they should.
    pub fn new(inner: T, luck: List<CallLuck>) -> Planned<T>
        ensures { planned_of result ≡ inner }
    {
        Planned {
            inner,
            plan: CallPlan::new(luck),
        }
    }

    /// The one within.
    pub fn into_inner(self) -> T
        ensures { result ≡ planned_of self }
    {
        let Planned { inner, plan: _ } = self;
        inner
    }
}

impl<R: Read> Read for Planned<R> {
    ghost remaining = { λ p. R.remaining p.inner };

    fn read(&mut self, buf: &mut [u8]) -> io::Result<usize> {
        let most = self.plan.draw()?;
        let some = buf.len().min(most);
        self.inner.read(&mut buf[..some])
    }
}

impl<W: Write> Write for Planned<W> {
    ghost contents = { λ p. W.contents p.inner };

    fn write(&mut self, buf: &[u8]) -> io::Result<usize> {
        let most = self.plan.draw()?;
        let some = buf.len().min(most);
        self.inner.write(&buf[..some])
    }

    fn flush(&mut self) -> io::Result<()> {
        self.plan.draw()?;
        self.inner.flush()
    }
}
