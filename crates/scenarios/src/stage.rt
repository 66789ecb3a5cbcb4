//! What is there before a call: files and disks, what fails, and whose updates meet.
use crate::gates::{COUNTED, Meeting};
use crate::sections::Section;
use scenario_lines::{Line, number_of, word_of, words_behind};
use std::alloc::Global;

/// How many bytes `out` and `note` take where nothing is said of them.
const MUCH_ROOM: u64 = 1000000;

/// A file or a disk that a scenario names, and its bytes if it is there. A disk that is not there
/// has no bytes.
#[derive(Drop)]
pub struct Held<'a> {
    pub name: &'a str,
    pub is_disk: bool,
    pub bytes: Option<Vec<u8>>,
}

/// A call that fails, by its number from 1 on among those that are counted together.
#[derive(Clone, Copy)]
pub struct Fault<'a> {
    pub calls: &'a str,
    pub number: u64,
}

/// What is there before a call.
#[derive(Drop)]
pub struct Stage<'a> {
    pub held: Vec<Held<'a>>,
    pub faults: Vec<Fault<'a>>,
    pub room_of_out: u64,
    pub room_of_note: u64,
    pub meeting: Option<Meeting>,
}

impl<'a> Stage<'a> {
    /// Returns a stage with these files and disks, on which nothing fails.
    pub fn new(alloc: Global, held: Vec<Held<'a>>) -> Stage<'a> {
        Stage {
            held,
            faults: Vec::new(alloc),
            room_of_out: MUCH_ROOM,
            room_of_note: MUCH_ROOM,
            meeting: None,
        }
    }

    /// Does what a section says before a call. Returns false if it says nothing of that.
    pub fn prepare(&mut self, alloc: Global, section: &Section<'a>) -> bool {
        match section.keyword {
            "given" | "scenario" | "#" | "" => true,
            "file" => self.fill(alloc, section, section.said, false),
            "disk" => self.fill(alloc, section, section.said, true),
            "stored" => self.fill(alloc, section, word_of(section.said), true),
            "missing" => self.hold(section.said, false, None),
            "fail" => self.fail(alloc, section.said),
            "room" => self.set_room(section.said),
            "meet" => self.meet(section.said),
            _ => false,
        }
    }

    /// Puts the text of a section into a file or a disk. Returns whether the text is well formed.
    fn fill(&mut self, alloc: Global, section: &Section<'a>, name: &'a str, is_disk: bool) -> bool {
        let bytes = section.text(alloc);
        let is_well = bytes.is_some();
        self.hold(name, is_disk, bytes) && is_well
    }

    /// Names a file or a disk, with its bytes if it is there.
    pub fn hold(&mut self, name: &'a str, is_disk: bool, bytes: Option<Vec<u8>>) -> bool {
        let place = self.place_of(name, is_disk);
        match self.held.get_mut(place) {
            Some(held) => {
                held.bytes = bytes;
                true
            }
            None => {
                let added = self.held.push(Held {
                    name,
                    is_disk,
                    bytes,
                });
                added.is_ok()
            }
        }
    }

    /// Returns the place of a file or a disk that is named, and else how many are.
    fn place_of(&self, name: &str, is_disk: bool) -> usize {
        for (place, held) in self.held.iter().enumerate() {
            if held.name == name && held.is_disk == is_disk {
                return place;
            }
        }
        self.held.len()
    }

    /// Names a file or a disk. What is there stays.
    pub fn name(&mut self, name: &'a str, is_disk: bool) {
        if self.place_of(name, is_disk) == self.held.len() {
            let _ = self.hold(name, is_disk, None);
        }
    }

    /// Lets calls fail. Returns whether there are such calls.
    fn fail(&mut self, alloc: Global, said: &'a str) -> bool {
        let line = Line::of(alloc, said);
        for number in line.numbers.iter() {
            self.fail_once(line.word, *number);
        }
        are_calls(line.word)
    }

    /// Lets the call of this number fail.
    pub fn fail_once(&mut self, calls: &'a str, number: u64) {
        let _ = self.faults.push(Fault { calls, number });
    }

    /// Sets how many bytes `out` or `note` takes. Returns whether it is one of these.
    fn set_room(&mut self, said: &str) -> bool {
        let room = number_of(words_behind(said));
        match word_of(said) {
            "out" => self.room_of_out = room,
            "note" => self.room_of_note = room,
            _ => return false,
        }
        true
    }

    /// Lets the updates of two vertices wait for each other. Returns whether they can.
    fn meet(&mut self, said: &str) -> bool {
        let one = number_of(word_of(said));
        let other = number_of(words_behind(said));
        self.meeting = Some(Meeting { one, other });
        one != other && one < COUNTED && other < COUNTED
    }
}

/// Returns whether calls are counted under this word.
pub fn are_calls(word: &str) -> bool {
    matches!(word, "reads" | "writes" | "disks" | "stop" | "out" | "note")
}
