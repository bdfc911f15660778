//! Bytes copied from one range of addresses to another, page by page, also where the two overlap.

ghost use Rattle.std.specs.Prelude.{ℕ, ◌≡◌, ◌≤◌, ◌<◌, ◌+◌, ◌-◌, ◌^◌, MatchOption, None};
ghost use Rattle.address_map.specs.Bytes.{AreMapped, with_moved_at};

use crate::map::{AddressMap, Span};

impl Span {
    /// The last bytes of it.
    fn last(&self, len: u32) -> Span
        requires within { len ≤ self.now.len }
        requires below { self.now.addr + self.now.len < 2 ^ 32 }
        requires fits { self.now.place + self.now.len < 2 ^ 64 }
        ensures addr { result.addr ≡ self.now.addr + (self.now.len - len) }
        ensures place { result.place ≡ self.now.place + (self.now.len - len) }
        ensures len { result.len ≡ len }
    {
        let before = self.len - len;
        Span {
            addr: self.addr + before,
            place: self.place + before as usize,
            len,
        }
    }
}

impl AddressMap {
    ghost use Rattle.address_map.specs.Memory.{IsSpan, place, is_mapped, byte_at, layout, class_of};

    /// Copies `len` bytes, owned or not. The two ranges may overlap.
    pub fn move_bytes(&mut self, from: u32, to: u32, len: u32)
        requires source { AreMapped (is_mapped self.old) from len }
        requires target { AreMapped (is_mapped self.old) to len }
        ensures bytes { (a : ℕ) → byte_at self.new a ≡ with_moved_at (byte_at self.old) from to len a }
        ensures layout { layout self.new ≡ layout self.old }
        ensures marks { class_of self.new ≡ class_of self.old }
    {
        if to < from {
            self.move_from_start(from, to, len);
        } else {
            self.move_from_end(from, to, len);
        }
    }

    /// Copies bytes to lower addresses, those at the lowest first, since the range may overlap
    /// itself.
    fn move_from_start(&mut self, from: u32, to: u32, len: u32)
        requires source { AreMapped (is_mapped self.old) from len }
        requires target { AreMapped (is_mapped self.old) to len }
        requires down { to ≤ from }
        ensures bytes { (a : ℕ) → byte_at self.new a ≡ with_moved_at (byte_at self.old) from to len a }
        ensures layout { layout self.new ≡ layout self.old }
        ensures marks { class_of self.new ≡ class_of self.old }
    {
        let mut done = 0;
        while done < len {
            let source = self.span(from + done).unwrap();
            let target = self.span(to + done).unwrap();
            let now = source.len.min(target.len).min(len - done);
            self.copy_span(&source, &target, now);
            done += now;
        }
    }

    /// Copies bytes to higher addresses, those at the highest first, since the range may overlap
    /// itself.
    fn move_from_end(&mut self, from: u32, to: u32, len: u32)
        requires source { AreMapped (is_mapped self.old) from len }
        requires target { AreMapped (is_mapped self.old) to len }
        requires up { from ≤ to }
        ensures bytes { (a : ℕ) → byte_at self.new a ≡ with_moved_at (byte_at self.old) from to len a }
        ensures layout { layout self.new ≡ layout self.old }
        ensures marks { class_of self.new ≡ class_of self.old }
    {
        let mut left = len;
        while left > 0 {
            let source = self.span_to(from + left).unwrap();
            let target = self.span_to(to + left).unwrap();
            let now = source.len.min(target.len).min(left);
            self.copy_span(&source.last(now), &target.last(now), now);
            left -= now;
        }
    }

    /// The bytes of a page up to the address `end`, or `None` where no memory is mapped below it.
    fn span_to(&self, end: u32) -> Option<Span>
        requires { 0 < end }
        ensures { MatchOption result (place self.now (end - 1) ≡ None)
            (λ span. (span.addr + span.len ≡ end) × IsSpan self.now span.addr span.place span.len) }
    {
        let page = self.page_at(end - 1)?;
        Some(Span {
            addr: page.addr,
            place: page.place,
            len: end - page.addr,
        })
    }

    fn copy_span(&mut self, source: &Span, target: &Span, len: u32)
        requires source { IsSpan self.old source.now.addr source.now.place source.now.len }
        requires target { IsSpan self.old target.now.addr target.now.place target.now.len }
        requires source_len { len ≤ source.now.len }
        requires target_len { len ≤ target.now.len }
        ensures bytes { let moved = with_moved_at (byte_at self.old) source.now.addr target.now.addr len in
            (a : ℕ) → byte_at self.new a ≡ moved a }
        ensures layout { layout self.new ≡ layout self.old }
        ensures marks { class_of self.new ≡ class_of self.old }
    {
        self.store.copy(source.place, target.place, len as usize);
    }
}
