//! A link over messages in memory, which fails exactly at the calls that it is told.
ghost use Rattle.std.specs.Prelude.{◌≡◌, ◌≢◌, ◌≤◌, ◌+◌, ◌++◌, [], IfOk, Ok, length};
ghost use Rattle.mix_outside.specs.Faults.{Rose};
ghost use Rattle.mix_outside.specs.Links.{answered, messages_in, idles_in, text_sent, close_sent};

use crate::calls::CallCount;
use crate::given::give;
use crate::{Got, Link, LinkItem, LinkItems, Put, Sent};
use mix_base::{CallList, NoMemory, Text};
use std::alloc::Global;
use std::marker::Model;

/// A link over messages in memory. Contracts see what is left, what it gave and was sent, the calls,
/// the faults and how often it was idle.
#[derive(Drop)]
pub struct MemLink {
    alloc: Global,
    items: LinkItems,
    count: usize,
    given: usize,
    taken: Vec<Got>,
    sent: Vec<Sent>,
    calls: CallCount,
    faults: u64,
    idles: u64,
}

impl Model for MemLink {
    ghost use Rattle.std.specs.Prelude.{◌≡◌, ◌≤◌, drop, length};
    ghost use Rattle.mix_outside.specs.MemoryLinks.{LinkState};

    ghost Value = { LinkState };

    ghost view = { λ link. record {
      left = drop link.given link.items;
      taken = link.taken.items;
      sent = link.sent.items;
      calls = link.calls;
      faults = link.faults;
      idles = link.idles;
    } };

    ghost invariant = { λ link. (link.count ≡ length link.items)
        × (link.given ≤ link.count) × (link.idles ≤ link.given) };
}

impl MemLink {
    ghost use Rattle.mix_outside.specs.MemoryLinks.{new_link, items_in, went_on};

    /// The calls that are to fail are counted from 0, whichever they are.
    pub fn new(alloc: Global, items: LinkItems, failing: CallList) -> MemLink
        ensures value { result ≡ new_link items failing }
    {
        let count = items.as_slice().len();
        MemLink {
            alloc,
            items,
            count,
            given: 0,
            taken: Vec::new(alloc),
            sent: Vec::new(alloc),
            calls: CallCount::new(failing),
            faults: 0,
            idles: 0,
        }
    }

    /// Goes past what it gives, and counts that.
    fn go_on(&mut self, got: &Got)
        requires there { items_in got.now ≤ length self.old.left }
        ensures state { self.new ≡ went_on got.now self.old }
    {
        match got {
            Got::Failed => self.faults = self.faults.saturating_add(1),
            Got::End => {}
            Got::Idle => {
                self.given += 1;
                self.idles += 1;
            }
            Got::Text(_) => self.given += 1,
            Got::Binary(_) => self.given += 1,
        }
    }

    /// The texts and codes that it was sent, in order.
    pub fn sent(&self) -> &[Sent]
        ensures value { result.now ≡ self.now.sent }
    {
        &self.sent
    }
}

impl Link for MemLink {
    ghost use Rattle.mix_outside.specs.MemoryLinks.{got_of, put_of, after_recv, after_put};
    ghost use Rattle.mix_outside.specs.MemoryLinks.{messages_of};

    ghost Tells = { Unit {0} };

    ghost taken = { λ link. link.taken };

    ghost left = { λ link. messages_of link.left };

    ghost sent = { λ link. link.sent };

    ghost faults = { λ link. link.faults };

    ghost idles = { λ link. link.idles };

    fn recv(&mut self) -> Result<Got, NoMemory>
        ensures value { IfOk result (λ got. got ≡ got_of self.old) }
        ensures state { self.new ≡ after_recv result self.old }
        ensures taken { self.new.taken ≡ self.old.taken ++ answered result }
        ensures left { messages_of self.old.left ≡ messages_in result ++ messages_of self.new.left }
        ensures end { result ≡ Ok Got.End → messages_of self.new.left ≡ [] }
        ensures sent { self.new.sent ≡ self.old.sent }
        ensures idle { self.new.idles ≡ self.old.idles + idles_in result }
        ensures later { self.old.faults ≤ self.new.faults }
        ensures cause { result ≡ Ok Got.Failed → Rose self.old.faults self.new.faults }
        ensures steady { result ≢ Ok Got.Failed → self.new.faults ≡ self.old.faults }
    {
        let named = self.calls.begin();
        self.taken.reserve(1)?;
        let left = &self.items.as_slice()[self.given..];
        let got = give(self.alloc, named, left)?;
        let Ok(copy) = give(self.alloc, named, left) else {
            drop(got);
            return Err(NoMemory);
        };
        self.taken.push_reserved(copy);
        self.go_on(&got);
        Ok(got)
    }

    fn send(&mut self, text: &Text) -> Result<Put, NoMemory>
        ensures value { IfOk result (λ put. put ≡ put_of self.old) }
        ensures state { self.new ≡ after_put (Sent.Text text.now) result self.old }
        ensures sent { self.new.sent ≡ self.old.sent ++ text_sent text.now result }
        ensures taken { self.new.taken ≡ self.old.taken }
        ensures left { messages_of self.new.left ≡ messages_of self.old.left }
        ensures idle { self.new.idles ≡ self.old.idles }
        ensures later { self.old.faults ≤ self.new.faults }
        ensures cause { result ≡ Ok Put.Failed → Rose self.old.faults self.new.faults }
        ensures steady { result ≢ Ok Put.Failed → self.new.faults ≡ self.old.faults }
    {
        if self.calls.begin() {
            self.faults = self.faults.saturating_add(1);
            return Ok(Put::Failed);
        }
        self.sent.reserve(1)?;
        let text = text.share()?;
        self.sent.push_reserved(Sent::Text(text));
        Ok(Put::Done)
    }

    fn close(&mut self, code: u16) -> Result<Put, NoMemory>
        ensures value { IfOk result (λ put. put ≡ put_of self.old) }
        ensures state { self.new ≡ after_put (Sent.Close code) result self.old }
        ensures sent { self.new.sent ≡ self.old.sent ++ close_sent code result }
        ensures taken { self.new.taken ≡ self.old.taken }
        ensures left { messages_of self.new.left ≡ messages_of self.old.left }
        ensures idle { self.new.idles ≡ self.old.idles }
        ensures later { self.old.faults ≤ self.new.faults }
        ensures cause { result ≡ Ok Put.Failed → Rose self.old.faults self.new.faults }
        ensures steady { result ≢ Ok Put.Failed → self.new.faults ≡ self.old.faults }
    {
        if self.calls.begin() {
            self.faults = self.faults.saturating_add(1);
            return Ok(Put::Failed);
        }
        self.sent.reserve(1)?;
        self.sent.push_reserved(Sent::Close(code));
        Ok(Put::Done)
    }
}
