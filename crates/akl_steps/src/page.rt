//! A text in the making.

ghost use Rattle.std.specs.Prelude.{None, ⊤};

use akl_outside::{Failed, Sink};
use akl_run::Status;
use akl_terms::Name;
use answer_text::push_constant;
use line_text::push_name;
use std::alloc::{AllocError, Global};

/// A text in the making. It keeps for itself that memory was wanting, and is no whole text then.
#[derive(Drop)]
pub struct Page {
    text: Vec<u8>,
    /// How often memory was wanting.
    faults: u64,
    /// How many parts are written of a term.
    pub parts: u32,
}

impl Page {
    /// An empty page.
    pub fn new(alloc: Global) -> Page {
        Page {
            text: Vec::new(alloc),
            faults: 0,
            parts: 0,
        }
    }

    /// Where its memory comes from.
    pub fn alloc(&self) -> Global {
        *self.text.allocator()
    }

    /// Memory was wanting for what belongs on the page.
    pub fn lack(&mut self) {
        self.faults = self.faults.saturating_add(1);
    }

    /// Something was done for the page, or memory was wanting for it.
    pub fn note(&mut self, done: Result<(), AllocError>) {
        if done.is_err() {
            self.lack();
        }
    }

    /// Adds bytes of a text.
    pub fn push_bytes(&mut self, bytes: &[u8]) {
        let done = self.text.extend_from_slice(bytes);
        self.note(done);
    }

    /// Adds a text.
    pub fn push(&mut self, text: &str) {
        self.push_bytes(text.as_bytes());
    }

    /// Adds a number in base ten.
    pub fn push_number(&mut self, number: i128) {
        match format!(in self.alloc(); "{number}") {
            Ok(digits) => self.push(digits.as_str()),
            Err(_) => self.lack(),
        }
    }

    /// Adds a text behind a part of a term, as a part of its own; nothing for no text.
    pub fn push_behind(&mut self, text: &str) {
        if !text.is_empty() {
            self.parts = self.parts.saturating_add(1);
            self.push(text);
        }
    }

    /// Adds a symbol without arguments.
    pub fn push_constant(&mut self, symbol: &str) {
        let done = push_constant(&mut self.text, symbol);
        self.note(done);
    }

    /// Adds a name: its worker, a dot, its number.
    pub fn push_name(&mut self, name: Name) {
        let done = push_name(&mut self.text, name);
        self.note(done);
    }

    /// Adds `#` and a name: its number, behind that of the worker where it isn't the first.
    pub fn push_mark(&mut self, name: Name) {
        self.push("#");
        if name.worker > 1 {
            self.push_name(name);
        } else {
            self.push_number(name.number as i128);
        }
    }

    /// Begins a new line that is so many levels deep.
    pub fn push_line(&mut self, depth: usize) {
        self.push("\n");
        for _ in 0..depth {
            self.push("  ");
        }
    }

    /// Begins an item of a line: a new line so many levels deep, which begins with this text, for the first, and a comma for
    /// another.
    pub fn push_item(&mut self, depth: usize, begin: &str, is_first: bool) {
        if !is_first {
            return self.push(", ");
        }
        self.push_line(depth);
        self.push(begin);
    }

    /// The text. An `Err` is the status of want of memory for a part of it.
    pub fn whole(&self) -> Result<&[u8], Status> {
        if self.faults == 0 {
            Ok(self.text.as_slice())
        } else {
            Err(Status::NoMemory)
        }
    }

    /// The text by itself; `None` for want of memory for a part of it.
    pub fn into_text(self) -> Option<Vec<u8>> {
        if self.faults == 0 {
            Some(self.text)
        } else {
            None
        }
    }

    /// Empties the page. That memory was wanting stays known.
    pub fn clear(&mut self) {
        self.text.clear();
    }
}

/// It tells nothing of its bytes, and a write fails only for want of memory.
impl Sink for Page {
    ghost written = { λ _. None };

    ghost faults = { λ page. page.faults };

    ghost write_takes = { λ _ _ _. ⊤ };

    ghost write_fails = { λ _ _. ⊤ };

    fn write(&mut self, piece: &[u8]) -> Result<usize, Failed> {
        match self.text.extend_from_slice(piece) {
            Ok(()) => Ok(piece.len()),
            Err(_) => {
                self.faults = self.faults.saturating_add(1);
                Err(Failed)
            }
        }
    }
}
