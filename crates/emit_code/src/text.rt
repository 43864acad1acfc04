//! Code in the making, from its end to its beginning, so that a jump knows how far it goes.

ghost use Rattle.std.specs.Prelude.{◌≡◌, ◌++◌, ◌∷◌, [], OnOk};
ghost use Rattle.rv_asm.specs.Item as item;

use crate::numbers::sum;
use rv_asm::Item;
use smlc_base::NoMemory;
use std::alloc::Global;
use std::marker::Model;

/// Code that is made from its end on. Contracts see its items in the order of the text.
#[derive(Drop)]
pub struct Text {
    backwards: Vec<Item>,
    words: u32,
}

impl Model for Text {
    ghost use Rattle.std.specs.Prelude.{List, reverse};
    ghost use Rattle.rv_asm.specs.declared.item.Item.{Item};
    ghost use Rattle.emit_code.specs.Counted.{IsCounted};

    ghost Value = { List Item };

    ghost view = { λ t. reverse t.backwards.items };

    ghost invariant = { λ t. IsCounted t.words t.backwards.items };
}

impl Text {
    /// The empty text. It takes no memory.
    pub fn new(alloc: Global) -> Text
        ensures { result ≡ [] }
    {
        Text {
            backwards: Vec::new(alloc),
            words: 0,
        }
    }

    /// How many instructions it is.
    pub fn words(&self) -> u32
        ensures { result ≡ item.words self.now }
    {
        self.words
    }

    /// The items in the order of the text.
    pub fn into_items(self) -> Vec<Item>
        ensures { result.items ≡ self }
    {
        let mut items = self.backwards;
        items.reverse();
        items
    }

    /// Puts an item in front.
    fn put_item(&mut self, item: Item) -> Result<(), NoMemory>
        ensures { OnOk result (self.new ≡ item ∷ self.old) }
    {
        let words = sum(self.words, item.size() as u32)?;
        self.backwards.push(item)?;
        self.words = words;
        Ok(())
    }

    /// Puts items in front.
    pub fn put_in_front(&mut self, piece: &[Item]) -> Result<(), NoMemory>
        ensures { OnOk result (self.new ≡ piece.now ++ self.old) }
    {
        let mut left = piece.len();
        while left > 0 {
            left -= 1;
            self.put_item(piece[left])?;
        }
        Ok(())
    }
}
