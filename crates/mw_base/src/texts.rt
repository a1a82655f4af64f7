ghost use Rattle.std.specs.Prelude.{◌≡◌, IfOk};
ghost use Rattle.mw_model.specs.Texts.{has_text as has_text_lem};

use crate::list::List;
use crate::memory::Memory;
use crate::text::Text;
use std::alloc::Global;

/// Copies of texts. `Memory` is its only error.
pub fn copy_texts(alloc: Global, texts: &[Text]) -> Result<List<Text>, Memory>
    ensures { IfOk result (λ ts. ts ≡ texts.now) }
{
    let mut copies = List::new(alloc);
    for text in texts {
        copies.push(Text::of(alloc, text.as_str())?)?;
    }
    Ok(copies)
}

/// Whether a text is among these.
pub fn has_text(texts: &[Text], text: &str) -> bool
    ensures { result ≡ has_text_lem texts.now text.now }
{
    for first in texts {
        if first.as_str() == text {
            return true;
        }
    }
    false
}
