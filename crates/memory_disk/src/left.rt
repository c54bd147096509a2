//! What a crash leaves, in memory.

ghost use Rattle.std.specs.Prelude.{◌≡◌, IfOk, map};

use site_base::NoMemory;
use std::alloc::Global;
use std::marker::Model;

/// What a crash leaves: the closed chapters, and a prefix of the open one.
#[derive(Drop)]
pub struct Left {
    closed: Vec<Vec<u8>>,
    front: Vec<u8>,
}

impl Model for Left {
    ghost use Rattle.std.specs.Prelude.{map};
    ghost use Rattle.journal.specs.Disks.{Moment};

    ghost Value = { Moment };

    ghost view = { λ l.
        record { closed = map (λ t. t.items) l.closed.items; front = l.front.items } };
}

impl Left {
    /// Returns a copy of these chapters.
    pub fn copy_of(alloc: Global, closed: &[Vec<u8>], front: &[u8]) -> Result<Left, NoMemory>
        ensures { IfOk result (λ l. l
            ≡ record { closed = map (λ t. t.items) closed.now; front = front.now }) }
    {
        let closed = copy_texts(alloc, closed)?;
        let front = Vec::from_slice(alloc, front)?;
        Ok(Left { closed, front })
    }
}

/// A copy of these texts.
fn copy_texts(alloc: Global, texts: &[Vec<u8>]) -> Result<Vec<Vec<u8>>, NoMemory>
    ensures { IfOk result (λ v. map (λ t. t.items) v.items ≡ map (λ t. t.items) texts.now) }
{
    let mut copies = Vec::new(alloc);
    for text in texts {
        copies.push(Vec::from_slice(alloc, text)?)?;
    }
    Ok(copies)
}
