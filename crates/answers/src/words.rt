// The words of each answer.
ghost use Rattle.std.specs.Prelude.{[], ◌∷◌};
ghost use Rattle.index_open.specs.Open.{layout_values};
ghost use Rattle.index_entry.specs.Entry as entry;
ghost use Rattle.index_page.specs.Page as page;
ghost use Rattle.encoding_lookup.specs.Lookup as encoding;
ghost use Rattle.worklist.specs.Rows as rows;
ghost use Rattle.answers.specs.Lent.{row_values};

use crate::told::AsWords;
use encoding_lookup::{Content, Encoded, Spec};
use index_layout::{HASH_LENGTH, Layout, PAGE_SIZE};
use index_page::Places;
use worklist::{RowFound, Span};

// A check that passes has no values to tell.
impl AsWords for () {
    ghost values = { λ _. [] };

    fn words(self) -> [u64; 8] {
        [0; 8]
    }
}

impl AsWords for u32 {
    ghost values = { λ n. n ∷ [] };

    fn words(self) -> [u64; 8] {
        [u64::from(self), 0, 0, 0, 0, 0, 0, 0]
    }
}

impl AsWords for u64 {
    ghost values = { λ n. n ∷ [] };

    fn words(self) -> [u64; 8] {
        [self, 0, 0, 0, 0, 0, 0, 0]
    }
}

impl AsWords for usize {
    ghost values = { λ n. n ∷ [] };

    fn words(self) -> [u64; 8] {
        [self as u64, 0, 0, 0, 0, 0, 0, 0]
    }
}

impl AsWords for Layout {
    ghost values = { layout_values };

    #[tactic(auto, unfolding(crossing::specs::Crossing::answer_words, index_open::specs::Open::layout_values))]
    fn words(self) -> [u64; 8] {
        let version = u64::from(self.version);
        let offset_width = u64::from(self.offset_width);
        let key_length = u64::from(self.key_length);
        let entries = u64::from(self.entries);
        let pages = u64::from(self.pages);
        [version, offset_width, key_length, entries, pages, 0, 0, 0]
    }
}

impl AsWords for index_entry::Entry {
    ghost values = { entry.values };

    #[tactic(auto, unfolding(crossing::specs::Crossing::answer_words, index_entry::specs::Entry::values))]
    fn words(self) -> [u64; 8] {
        let at = self.key_at as u64;
        let key_length = u64::from(self.key_length);
        let size = u64::from(self.size);
        let archive = u64::from(self.archive);
        let page = u64::from(self.page.0);
        let slot = u64::from(self.slot.0);
        [at, key_length, size, archive, self.offset, page, slot, 0]
    }
}

impl AsWords for Places {
    ghost values = { page.values };

    fn words(self) -> [u64; 8] {
        [
            self.page_at as u64,
            PAGE_SIZE as u64,
            self.last_key_at as u64,
            u64::from(self.key_length),
            self.hash_at as u64,
            u64::from(HASH_LENGTH),
            self.first_entry as u64,
            self.entries as u64,
        ]
    }
}

impl AsWords for Content {
    ghost values = { encoding.content_values };

    fn words(self) -> [u64; 8] {
        let keys = u64::from(self.keys);
        [
            self.size,
            keys,
            self.at as u64,
            self.length as u64,
            0,
            0,
            0,
            0,
        ]
    }
}

impl AsWords for Encoded {
    ghost values = { encoding.encoding_values };

    fn words(self) -> [u64; 8] {
        let spec = u64::from(self.spec);
        [
            spec,
            self.size,
            self.at as u64,
            self.length as u64,
            0,
            0,
            0,
            0,
        ]
    }
}

impl AsWords for Spec {
    ghost values = { encoding.spec_values };

    fn words(self) -> [u64; 8] {
        [self.at as u64, self.length as u64, 0, 0, 0, 0, 0, 0]
    }
}

// A row: where it ends, where the next begins, and its fields or the place where it is malformed.
impl AsWords for RowFound {
    ghost values = { row_values };

    fn words(self) -> [u64; 8] {
        let end = self.end as u64;
        let next = self.next as u64;
        match self.fields {
            Ok(fields) => [end, next, fields as u64, 0, 0, 0, 0, 0],
            Err(malformed) => [end, next, 0, 1, malformed.place as u64, 0, 0, 0],
        }
    }
}

impl AsWords for Span {
    ghost values = { rows.span_values };

    #[tactic(auto, unfolding(crossing::specs::Crossing::answer_words, worklist::specs::Rows::span_values))]
    fn words(self) -> [u64; 8] {
        let quoted = u64::from(self.quoted);
        [self.at as u64, self.length as u64, quoted, 0, 0, 0, 0, 0]
    }
}
