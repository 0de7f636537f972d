//! A list of a fixed room. An `ArrayVec` would make two copies of the room on the stack of whoever calls its
//! `new`.
ghost use Rattle.std.specs.Prelude.{◌≡◌, ◌<◌, ◌↔◌, [], ◌∷◌, ◌++◌, length, IsOk, OnOk, OnErr, IsSome, IfNone};
ghost use Rattle.std.specs.Option.{option_to_list};

use crate::rule::{Frame, Noted};
use cfi_entries::Question;
use std::marker::Model;

/// What was noted, the last at the end.
#[derive(Drop)]
pub struct Log {
    entries: [Noted; 400],
    count: usize,
}

impl Model for Log {
    ghost use Rattle.std.specs.Prelude.{List, ◌≤◌, take};
    ghost use Rattle.cfi_rules.specs.declared.rule.Noted.{Noted};

    ghost Value = { List Noted };

    ghost view = { λ l. take l.count l.entries };

    ghost invariant = { λ l. l.count ≤ 400 };
}

impl Log {
    pub fn new() -> Self
        ensures { result ≡ [] }
    {
        Log {
            entries: [Noted::Mark(Frame::default()); 400],
            count: 0,
        }
    }

    pub fn push(&mut self, entry: Noted) -> Result<(), Question>
        ensures variant { IsOk result ↔ (length self.old < 400) }
        ensures ok { OnOk result (self.new ≡ self.old ++ entry ∷ []) }
        ensures full { OnErr result (length self.old ≡ 400) }
        ensures same { OnErr result (self.new ≡ self.old) }
    {
        if self.count == 400 {
            return Err(Question::StatesRoom);
        }
        self.entries[self.count] = entry;
        self.count += 1;
        Ok(())
    }

    pub fn pop(&mut self) -> Option<Noted>
        ensures items { self.old ≡ self.new ++ option_to_list result }
        ensures variant { IsSome result ↔ (0 < length self.old) }
        ensures empty { IfNone result (self.new ≡ self.old) }
    {
        if self.count == 0 {
            return None;
        }
        self.count -= 1;
        Some(self.entries[self.count])
    }
}
