//! A list that is made item by item.

use std::alloc::{AllocError, Global};

/// A list that is made item by item. Adding one never fails: whoever asks for the whole list is told where memory was refused to an item.
#[derive(Drop)]
pub(crate) struct List<T> {
    items: Vec<T>,
    is_cut: bool,
}

impl<T: Drop> List<T> {
    /// A list without an item.
    pub(crate) fn new(alloc: Global) -> List<T> {
        List {
            items: Vec::new(alloc),
            is_cut: false,
        }
    }

    /// Adds an item.
    pub(crate) fn push(&mut self, item: T) {
        if self.items.push(item).is_err() {
            self.is_cut = true;
        }
    }

    /// Adds an item, unless memory was refused to it.
    pub(crate) fn push_made(&mut self, made: Result<T, AllocError>) {
        match made {
            Ok(item) => self.push(item),
            Err(_) => self.is_cut = true,
        }
    }

    /// Takes the last item out.
    pub(crate) fn pop(&mut self) -> Option<T> {
        self.items.pop()
    }

    /// The whole list.
    pub(crate) fn finish(self) -> Result<Vec<T>, AllocError> {
        if self.is_cut {
            return Err(AllocError);
        }
        Ok(self.items)
    }
}
