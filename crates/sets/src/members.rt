// The names of items of a sort, as labels, temps or gathers, in a set, in a class, as far as there is room.
ghost use Rattle.std.specs.Prelude.{◌≡◌, ◌+◌, ◌<◌, ◌≤◌, length, take};
ghost use Rattle.story.specs.Story.{whats};
ghost use Rattle.story.specs.Flows.{part};
ghost use Rattle.items.specs.Bodies.{items_at};
ghost use Rattle.items.specs.Search.{found_among};
ghost use Rattle.items.specs.Standing.{NamesStand};
ghost use Rattle.sets.specs.Sets.{number_of, name_slots, Without};
ghost use Rattle.sets.specs.Members.{Members, MembersPut};

use crate::{Class, Full, has, put};
use items::items::named_at;
use items::named::{Sought, found_in, is_of_sort};

// Items of a file, whose names stand in it.
#[derive(Clone, Copy)]
pub struct NamedItems<'a> {
    pub file: &'a [u8],
    pub items: &'a [u32],
    pub ghost names_stand: { NamesStand file.now items.now },
}

impl<'a> NamedItems<'a> {
    // The items from number a to number b.
    pub fn between(self, a: usize, b: usize) -> NamedItems<'a>
        requires { (a ≤ b) × (b ≤ length self.items.now) }
        ensures file { result.file.now ≡ self.entry.file.now }
        ensures items { result.items.now ≡ part a b self.entry.items.now }
    {
        NamedItems {
            file: self.file,
            items: &self.items[a..b],
        }
    }

    // Passes item number i: puts its name into the set, in the class, where it is of the sought sort. The answer is the number of the item
    // from which on nothing is in the set: once there was no room it stays.
    pub fn put_next(
        self,
        sought: Sought,
        i: usize,
        rest: usize,
        class: Class,
        set: &mut [u32],
    ) -> usize
        requires in_bounds { i < length self.items.now }
        requires members { Members sought self.file.now (number_of class) self.items.now i set.old rest }
        ensures { MembersPut sought self.entry.file.now (number_of class) self.entry.items.now (i + 1) set.old set.new result }
    {
        if rest < i {
            return rest;
        }
        let item = self.items[i];
        if !is_of_sort(sought, item) {
            return i + 1;
        }
        match put(self.file, named_at(item), class, set) {
            Ok(_) => i + 1,
            Err(Full) => i,
        }
    }

    // Puts the names of all items of the sought sort. The answer is the number of the item from which on nothing is in the set.
    pub fn put_items(self, sought: Sought, class: Class, set: &mut [u32]) -> usize
        requires { Without (name_slots self.file.now) (number_of class) set.old }
        ensures { MembersPut sought self.entry.file.now (number_of class) self.entry.items.now (length self.entry.items.now) set.old set.new result }
    {
        let mut rest = 0;
        for i in 0..self.items.len() {
            rest = self.put_next(sought, i, rest, class, set);
        }
        rest
    }
}

// The first `passed` items and a set: the names of those of the sought sort are in the set, in the class, but for those from item `rest` on.
#[derive(Clone, Copy)]
pub struct Among<'a> {
    pub sought: Sought,
    pub file: &'a [u8],
    pub items: &'a [u32],
    pub passed: usize,
    pub rest: usize,
    pub class: Class,
    pub set: &'a [u32],
    pub ghost members: { Members sought file.now (number_of class) items.now passed set.now rest },
}

impl Among<'_> {
    // The name is one of those of the passed items that are of the sought sort: by the set, or by going through the items from `rest` on.
    pub fn has(&self, name: &[u8]) -> bool
        ensures { result ≡ found_among self.now.sought (whats (items_at self.now.file.now (take self.now.passed self.now.items.now))) name.now }
    {
        let left = &self.items[self.rest..self.passed];
        has(self.file, self.set, self.class, name) || found_in(self.sought, self.file, left, name)
    }
}
