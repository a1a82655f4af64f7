ghost use Rattle.std.specs.Prelude.{◌≡◌, IfOk, OnOk, string_bytes};
ghost use Rattle.mw_owed.specs.Written.{behind, text_of};

use crate::message::put_text;
use mw_base::{Memory, Text};
use mw_effects::{Announced, Audience};
use std::alloc::Global;
use std::marker::Model;

/// A packet for several sessions, with its text once one that hears it was met.
#[derive(Drop)]
pub struct Telling<'a> {
    announced: &'a Announced,
    text: Option<Text>,
}

impl<'a> Model for Telling<'a> {
    ghost use Rattle.mw_effects.specs.contracts.effect.Announced.{the_row};
    ghost use Rattle.mw_effects.specs.declared.effect.Announced.{Announced};
    ghost use Rattle.mw_owed.specs.Written.{IsWritten};

    ghost Value = { Announced };

    ghost coded = { the_row.coded };

    ghost view = { λ t. t.announced.now };

    ghost invariant = { λ t. IsWritten t.text t.announced.now };
}

impl<'a> Telling<'a> {
    /// Who hears it.
    pub(crate) fn audience(&self) -> &Audience
        ensures { result.now ≡ self.now.audience }
    {
        &self.announced.audience
    }

    /// Adds the packet to the text of a message. It is written where it wasn't yet.
    pub(crate) fn put(&mut self, alloc: Global, out: &mut String) -> Result<(), Memory>
        ensures same { self.new ≡ self.old }
        ensures put { OnOk result (string_bytes out.new
            ≡ behind (string_bytes out.old) (text_of self.old)) }
    {
        match &self.text {
            Some(text) => put_text(out, text.as_str()),
            None => {
                let text = self.announced.told.text(alloc)?;
                put_text(out, text.as_str())?;
                self.text = Some(text);
                Ok(())
            }
        }
    }
}

/// The packets, none of them written.
pub(crate) fn tellings_of<'a>(
    alloc: Global,
    announced: &'a [Announced],
) -> Result<Vec<Telling<'a>>, Memory>
    ensures { IfOk result (λ ts. ts.items ≡ announced.now) }
{
    let mut tellings = Vec::new(alloc);
    for one in announced {
        tellings.push(Telling {
            announced: one,
            text: None,
        })?;
    }
    Ok(tellings)
}
