// An answer that is written field by field into the buffer of a call, as the stored answers are laid out. What does not fit is left out,
// so that the lengths differ.
use fields::write::{put_bytes, put_number};
use fields::{Checked, Width, Written};
use plans::write::{put_member, put_read};

/// A buffer, and how many bytes of it are written.
// It has no equality, since what is lent for writing has none.
#[derive(Debug, Drop)]
pub(crate) struct Output<'a> {
    buffer: &'a mut [u8],
    length: usize,
}

impl<'a> Output<'a> {
    /// A buffer of which nothing is written.
    pub(crate) fn new(buffer: &'a mut [u8]) -> Output<'a> {
        Output { buffer, length: 0 }
    }

    /// How many bytes are written.
    pub(crate) fn written(&self) -> Written {
        Ok(self.length)
    }

    // So many bytes more are written.
    fn grow(&mut self, bytes: usize) {
        self.length = self.length.saturating_add(bytes);
    }

    /// A number.
    pub(crate) fn number(&mut self, width: Width, n: u64) {
        put_number(self.buffer, self.length, width, n);
        self.grow(width.bytes());
    }

    /// A count, or a place.
    pub(crate) fn count(&mut self, width: Width, n: usize) {
        // By `as`: std has no `From` that makes a u64 of it.
        self.number(width, n as u64);
    }

    /// Bytes.
    pub(crate) fn bytes(&mut self, t: &[u8]) {
        put_bytes(self.buffer, self.length, t);
        self.grow(t.len());
    }

    /// A text: its length and its bytes.
    pub(crate) fn text(&mut self, t: &[u8]) {
        self.count(Width::One, t.len());
        self.bytes(t);
    }

    /// A size: 0 where it is unknown; or 1 and 8 bytes.
    pub(crate) fn size(&mut self, size: Option<u64>) {
        self.number(Width::One, u64::from(size.is_some()));
        if let Some(bytes) = size {
            self.number(Width::Eight, bytes);
        }
    }

    /// What the check of a file answers: the number of the refusal and what it returns, both 0 where there is none.
    pub(crate) fn verdict(&mut self, checked: Checked) {
        let refusal = checked.err();
        self.number(Width::One, refusal.map_or(0, |r| u64::from(r.number())));
        self.count(Width::Eight, refusal.map_or(0, |r| r.returned()));
    }

    /// A row of texts: how many they are, and each by its position.
    pub(crate) fn row<'t, F: Fn(usize) -> &'t [u8]>(&mut self, count: usize, text_at: F)
        requires { F.IsAlwaysCallable text_at }
    {
        self.count(Width::Two, count);
        for i in 0..count {
            self.text(text_at(i));
        }
    }

    /// A read of a plan before its members: its name, and how many they are.
    pub(crate) fn read(&mut self, name: &[u8], members: u16) {
        put_read(self.buffer, self.length, name, members);
        self.grow(name.len());
        self.grow(3);
    }

    /// A member of a plan: its tag, and its path as bytes, key count and keys; a path of no bytes is none.
    pub(crate) fn member(&mut self, tag: &[u8], path: &[u8]) {
        put_member(self.buffer, self.length, tag, path);
        self.grow(tag.len());
        self.grow(path.len());
        self.grow(2);
    }
}
