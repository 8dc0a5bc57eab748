// A waiting set.

ghost use Rattle.std.specs.Prelude.{◌≡◌, ◌↔◌, ◌<◌, ◌^◌, [], None, Some, length, option_map, IfErr, IfOk, IfSome, IsTrue, OnErr, OnOk};
ghost use Rattle.std.specs.List.{list_all};
ghost use Rattle.std.specs.Option.{option_copied};
ghost use Rattle.apex_machine.specs.Answer.{NamesExactly, waiters_of};
ghost use Rattle.apex_machine.specs.Demands.{has_entry_in};
ghost use Rattle.apex_machine.specs.Waiting.{first_waiter, first_waiters, is_waiting};
ghost use Rattle.wait_set.specs.Actors.{WaitsAlone, entry_with, joined_by};
ghost use Rattle.apex_machine.specs.State.{is_named};
ghost use Rattle.wait_set.specs.Ranks.{rank_of};
ghost use Rattle.wait_set.specs.Sets as sets;
ghost use Rattle.wait_set.specs.Sets.{IsNew, IsListOfWaiters, NobodyTwice, PlacesRise, entered, waiter_of, without_first, without_named, without_one, without_part};

use crate::named::names_nobody_twice;
use crate::object::Actor;
use crate::rank::Rank;
use apex_machine::Entry;
use apex_types::{Claim, Discipline, Message, Out, PartId, Place, ProcId, Who};
use std::alloc::{AllocError, Global};
use std::collections::{BTreeMap, BTreeSet};
use std::marker::Model;
use thiserror::Error;

/// An entry that could not enter, since memory was refused.
#[derive(Debug, Drop, Error)]
#[error("out of memory")]
pub struct Refused {
    pub entry: Entry,
}

/// A waiting set: its discipline, and the processes that wait in it.
#[derive(Drop)]
pub struct WaitSet {
    alloc: Global,
    discipline: Discipline,
    entries: BTreeMap<Place, Entry>,
    places: BTreeMap<Who, Place>,
    ranks: BTreeSet<Rank>,
}

impl Model for WaitSet {
    ghost use Rattle.std.specs.Map.{values_of};
    ghost use Rattle.wait_set.specs.Sets.{Waiters};
    ghost use Rattle.wait_set.specs.Kept.{IsKept};

    ghost Value = { Waiters };

    ghost view = { λ set. record { discipline = set.discipline; entries = values_of set.entries.entries } };

    ghost invariant = { λ set. IsKept set.discipline set.entries.entries set.places.entries set.ranks.keys };
}

impl WaitSet {
    /// The empty set of this discipline. Takes no memory.
    pub fn new(alloc: Global, discipline: Discipline) -> WaitSet
        ensures { result ≡ record { discipline = discipline; entries = [] } }
    {
        WaitSet {
            alloc,
            discipline,
            entries: BTreeMap::new(alloc),
            places: BTreeMap::new(alloc),
            ranks: BTreeSet::new(alloc),
        }
    }

    /// Adds an entry, which is new in the set.
    ///
    /// Refused if memory is refused: the entry comes back, and nothing is changed.
    pub fn enter(&mut self, entry: Entry) -> Result<(), Refused>
        requires new { IsNew entry self.old.entries }
        ensures ok { OnOk result (self.new ≡ record self.old { entries = entered entry self.old.entries }) }
        ensures back { IfErr result (λ refused. refused.entry ≡ entry) }
        ensures unchanged { OnErr result (self.new ≡ self.old) }
    {
        let who = entry.who;
        let place = entry.place;
        let rank = Rank::new(self.discipline, &entry);
        if self.places.insert(who, place).is_err() {
            return Err(Refused { entry });
        }
        if self.ranks.insert(rank).is_err() {
            self.places.remove(&who);
            return Err(Refused { entry });
        }
        match self.entries.insert(place, entry) {
            Ok(_) => Ok(()),
            Err(refused) => {
                let (_, entry) = refused.value;
                self.places.remove(&who);
                self.ranks.remove(&rank);
                Err(Refused { entry })
            }
        }
    }

    /// Whether a process waits in the set. Takes no memory.
    pub fn has(&self, who: Who) -> bool
        ensures { result ≡ has_entry_in who self.now.entries }
    {
        self.places.contains_key(&who)
    }

    /// The first entry, or None if no process waits. Its process has no other entry. Takes no memory.
    pub fn first(&self) -> Option<&Entry>
        ensures first { option_copied result ≡ first_waiter self.now.discipline self.now.entries }
        ensures own { IfSome result (λ entry. sets.entry_of entry.now.who self.now.entries ≡ Some entry.now) }
    {
        let rank = self.ranks.first()?;
        self.entries.get(&rank.place)
    }

    /// Takes out the first entry, or answers None if no process waits. Takes no memory.
    pub fn take_first(&mut self) -> Option<Entry>
        ensures first { result ≡ first_waiter self.old.discipline self.old.entries }
        ensures taken { self.new ≡ record self.old { entries = without_first self.old.discipline self.old.entries } }
    {
        let who = self.first()?.who;
        self.take(who)
    }

    /// Takes a process out of the set. Returns whether it was in it. Takes no memory.
    pub fn leave(&mut self, who: Who) -> bool
        ensures stood { result ≡ has_entry_in who self.old.entries }
        ensures left { self.new ≡ record self.old { entries = without_one who self.old.entries } }
    {
        self.take(who).is_some()
    }

    // Takes out the entry of a process, or answers None if it does not wait here.
    fn take(&mut self, who: Who) -> Option<Entry>
        ensures taken { result ≡ sets.entry_of who self.old.entries }
        ensures left { self.new ≡ record self.old { entries = without_one who self.old.entries } }
    {
        let place = self.places.remove(&who)?;
        let Some(entry) = self.entries.remove(&place) else {
            unreachable!()
        };
        let rank = Rank::new(self.discipline, &entry);
        self.ranks.remove(&rank);
        Some(entry)
    }

    /// Takes out all processes that a list names. Takes no memory.
    pub fn release(&mut self, named: &[Who])
        ensures { self.new ≡ record self.old { entries = without_named named.now self.old.entries } }
    {
        for who in named {
            self.leave(*who);
        }
    }

    /// Takes out the first entry, whose process the list must name, and no other. None if no process waits; the list must then name none.
    /// Takes no memory.
    pub fn release_first(&mut self, named: &[Who]) -> Option<Entry>
        requires { NamesExactly (waiter_of (first_waiter self.old.discipline self.old.entries)) named.now }
        ensures first { result ≡ first_waiter self.old.discipline self.old.entries }
        ensures left { self.new ≡ record self.old { entries = without_named named.now self.old.entries } }
    {
        let first = self.take_first();
        self.release(named);
        first
    }

    /// Takes out all processes of a partition. The cost is logarithmic in the set's size for each process that leaves. Takes no memory.
    pub fn leave_all(&mut self, part: PartId)
        ensures { self.new ≡ record self.old { entries = without_part part self.old.entries } }
    {
        'members: while let Some(who) = self.member(part) {
            self.leave(who);
        }
    }

    // A process of a partition that waits here, or None if none does.
    fn member(&self, part: PartId) -> Option<Who>
        ensures is_member { IfSome result (λ who. (who.part ≡ part) × IsTrue (has_entry_in who self.now.entries)) }
        ensures none { result ≡ None → without_part part self.now.entries ≡ self.now.entries }
    {
        let least = Who {
            part,
            proc: ProcId::new(0),
        };
        let (who, _) = self.places.range(least..).next()?;
        if who.part == part { Some(*who) } else { None }
    }

    /// Whether a list names exactly the processes that wait here, each once. Takes no memory.
    pub fn is_exactly(&self, named: &[Who]) -> bool
        ensures { IsTrue result ↔ IsListOfWaiters self.now.entries named.now }
    {
        if named.len() != self.entries.len() {
            return false;
        }
        names_nobody_twice(named) && self.all_have_entries(named)
    }

    /// Whether a list names exactly the first processes that wait here, as many as this number or all, each once. Takes no memory.
    pub fn is_first(&self, count: usize, named: &[Who]) -> bool
        ensures { IsTrue result ↔ IsListOfWaiters (first_waiters self.now.discipline count self.now.entries) named.now }
    {
        if named.len() != count.min(self.entries.len()) {
            return false;
        }
        names_nobody_twice(named) && named.iter().all(|who| self.has_among_first(*who, count))
    }

    /// Whether a process is among the first that wait here, as many as this number or all. Takes no memory.
    pub fn has_among_first(&self, who: Who, count: usize) -> bool
        ensures { result ≡ is_named who (waiters_of (first_waiters self.now.discipline count self.now.entries)) }
    {
        let Some(rank) = self.rank_of(who) else {
            return false;
        };
        self.ranks.iter().take(count).any(|other| *other == rank)
    }

    // The rank of a process, if it waits here.
    fn rank_of(&self, who: Who) -> Option<Rank>
        ensures { result ≡ option_map (rank_of self.now.discipline) (sets.entry_of who self.now.entries) }
    {
        let place = self.places.get(&who)?;
        let entry = self.entries.get(place)?;
        Some(Rank::new(self.discipline, entry))
    }

    // Whether all processes that a list names wait here.
    fn all_have_entries(&self, named: &[Who]) -> bool
        ensures { result ≡ list_all (λ who. has_entry_in who self.now.entries) named.now }
    {
        named.iter().all(|who| self.has(*who))
    }

    /// Takes out all processes. Takes no memory.
    pub fn clear(&mut self)
        ensures { self.new ≡ record self.old { entries = [] } }
    {
        self.entries.clear();
        self.places.clear();
        self.ranks.clear();
    }

    /// The discipline of the set. Takes no memory.
    pub fn discipline(&self) -> Discipline
        ensures { result ≡ self.now.discipline }
    {
        self.discipline
    }

    /// How many processes wait here. The places of the entries rise, and no process has two entries.
    pub fn len(&self) -> usize
        ensures len { result ≡ length self.now.entries }
        ensures small { result < 2 ^ 63 }
        ensures rising { PlacesRise self.now.entries }
        ensures once { NobodyTwice (waiters_of self.now.entries) }
    {
        self.entries.len()
    }

    /// Whether no process waits here.
    pub fn is_empty(&self) -> bool
        ensures { IsTrue result ↔ (self.now.entries ≡ []) }
    {
        self.entries.is_empty()
    }

    /// Changes the set by a call that may wait here: each process whose wait the claim ends leaves, and a caller that waits enters with
    /// this message. A caller that waits ends no wait.
    ///
    /// AllocError if memory is refused to a caller that waits; nothing is changed then.
    pub fn settle(&mut self, actor: Actor, claim: &Claim, message: &[u8]) -> Result<(), AllocError>
        requires new { IsNew (entry_with actor message.now) self.old.entries }
        requires alone { WaitsAlone claim.now }
        ensures ok { OnOk result (self.new ≡ record self.old { entries = joined_by actor claim.now message.now self.old.entries }) }
        ensures unchanged { OnErr result (self.new ≡ self.old) }
        ensures memory { OnErr result (IsTrue (is_waiting claim.now.out)) }
    {
        match claim.out {
            Out::Waits => self.join(actor, message),
            Out::Never | Out::Answer(_) => {
                self.release(claim.woken.as_slice());
                Ok(())
            }
        }
    }

    // Adds the caller of a call, which waits with a copy of this message.
    fn join(&mut self, actor: Actor, message: &[u8]) -> Result<(), AllocError>
        requires { IsNew (entry_with actor message.now) self.old.entries }
        ensures ok { OnOk result (self.new ≡ record self.old { entries = entered (entry_with actor message.now) self.old.entries }) }
        ensures unchanged { OnErr result (self.new ≡ self.old) }
    {
        let message = Message::new(Vec::from_slice(self.alloc, message)?);
        let entry = Entry {
            who: actor.who,
            priority: actor.priority,
            place: actor.place,
            message,
        };
        match self.enter(entry) {
            Ok(()) => Ok(()),
            Err(_) => Err(AllocError),
        }
    }
}

impl Clone for WaitSet {
    ghost is_clone = { λ set copy. copy ≡ set };

    fn clone(&self) -> Result<WaitSet, AllocError> {
        Ok(WaitSet {
            alloc: self.alloc,
            discipline: self.discipline,
            entries: self.entries.clone()?,
            places: self.places.clone()?,
            ranks: self.ranks.clone()?,
        })
    }
}
