use crate::memory::Memory;
use std::alloc::Global;

/// Room for more elements, taken ahead: a larger buffer where the list's own is too small.
#[derive(Drop)]
pub struct Growth<T> {
    buffer: Option<Vec<T>>,
}

impl<T> Growth<T> {
    ghost use Rattle.std.specs.Prelude.{◌≡◌, ◌++◌, IfOk, vec_len};
    ghost use Rattle.mw_base.specs.Space.{HasSpace};

    /// Room for this many more elements of a list.
    pub fn of(alloc: Global, items: &Vec<T>, more: usize) -> Result<Growth<T>, Memory>
        ensures { IfOk result (λ g. HasSpace items.now g more) }
    {
        let total = items.len().checked_add(more).ok_or(Memory)?;
        if total <= items.capacity() {
            return Ok(Growth { buffer: None });
        }
        let wide = total.max(items.len().saturating_mul(2));
        let buffer = Vec::with_capacity(alloc, wide)?;
        Ok(Growth {
            buffer: Some(buffer),
        })
    }

    /// Moves the new elements to the end of the list.
    pub fn fill(self, items: &mut Vec<T>, more: &mut Vec<T>)
        requires { HasSpace items.old self (vec_len more.old) }
        ensures { items.new.items ≡ items.old.items ++ more.old.items }
    {
        let Growth { buffer } = self;
        if let Some(mut wide) = buffer {
            wide.append(items).unwrap();
            std::mem::swap(items, &mut wide);
            wide.destroy_empty();
        }
        items.append(more).unwrap();
    }
}

impl<T: Drop> Growth<T> {
    ghost use Rattle.std.specs.Prelude.{◌≡◌, ◌++◌, ◌∷◌, []};
    ghost use Rattle.mw_base.specs.Space.{HasSpace};

    /// Puts an element at the end of the list.
    pub fn push(self, items: &mut Vec<T>, item: T)
        requires { HasSpace items.old self 1 }
        ensures { items.new.items ≡ items.old.items ++ item ∷ [] }
    {
        let Growth { buffer } = self;
        if let Some(mut wide) = buffer {
            wide.append(items).unwrap();
            std::mem::swap(items, &mut wide);
            wide.destroy_empty();
        }
        items.push(item).unwrap();
    }
}
