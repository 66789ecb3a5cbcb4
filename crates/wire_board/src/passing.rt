//! What a machine's seat hears and tells on the links.
ghost use Rattle.std.specs.Prelude.{◌≡◌, ◌≢◌, ◌+◌, ◌-◌, ◌*◌, ◌^◌, ◌<◌, ◌++◌, ◌∷◌, ℕ, suc, List, [], None, length, true, false, map, IfOk, OnOk};
ghost use Rattle.link_tables.specs.Rule.{CarriesLink};
ghost use Rattle.link_tables.specs.Seats.{HoldsLink, number_in, sight};
ghost use Rattle.link_tables.specs.declared.words.LinkWord.{LinkWord};
ghost use Rattle.link_tables.specs.declared.words.LinkWord.TheVariants.{Bare, Laden, Out};
ghost use Rattle.coordinator.specs.machine_api.Promises.{HasHeard, HasNext, IsReporting, MayHearCall, OfEach, StandsStill};
ghost use Rattle.wire.specs.declared.wire_msgs.messages.Message.{Message};
ghost use Rattle.coordinator.specs.machine_api.Told.{message_read};
ghost use Rattle.wire_board.specs.Freeing.{IsFree};
ghost use Rattle.wire_board.specs.Hearing.{CanHear, HasHeardAll, HasHeardFirst, HasToldAll, HasToldFirst, MayHearFirst, MessageView};
ghost use Rattle.wire_board.specs.Led.{HasBeenLed, IsBare, LinkView, Node, link_no, number_of};
ghost use Rattle.wire_board.specs.Openings.{standing_parts};
ghost use Rattle.wire_board.specs.Seats.{HasTakenLink, Sits, at_rest, word_at};
ghost use Rattle.wire_board.specs.Sights.{FoundBare, FoundWord, HadQueue, HasLooked, Sees};

use crate::boards::{Board, word_of};
use crate::calls::{hear_first, tell_first};
use crate::hearing::hear_all;
use crate::standings::{Member, Seated};
use crate::telling::tell_all;
use cluster_step::clusters::{Link, SavingMachine};
use gl_base::{MachineNo, NoMemory};
use link_tables::{LinkWord, Place};
use std::alloc::Global;
use std::marker::Brand;

/// What came of hearing.
#[derive(Clone, Copy, Debug, PartialEq, Eq)]
pub enum Heard {
    /// What was on the link has come.
    Applied,
    /// Nothing was on the link.
    Empty,
    /// Another seat had the link.
    Busy,
}

/// What came of telling.
#[derive(Clone, Copy, Debug, PartialEq, Eq)]
pub enum Told {
    /// What waited is on the link.
    Moved,
    /// Nothing waited.
    Nothing,
    /// Another seat had the link, or put another word there meanwhile.
    Busy,
}

impl<M: SavingMachine> Board<M> {
    /// Hears all that another machine has put on the link to this one. `Empty` comes only where
    /// nothing is on the link, and `Busy` only where another seat has it. For want of memory what
    /// is not heard yet stays on the link.
    pub fn hear(
        &self,
        alloc: Global,
        member: &mut Member<M>,
        place: &mut Place<Seated<M>, Link>,
        from: MachineNo,
    ) -> Result<Heard, NoMemory>
        requires table { place.old.seat.table_id ≡ self.now.table.table.shared.table_id }
        requires links { (member.old.peers * member.old.peers ≡ self.now.table.many) ×
            (member.old.peers < 2 ^ 16) }
        requires from { (suc from.0 < member.old.peers) ×
            (suc member.old.number < member.old.peers) }
        requires sits { Sits M.represents member.old place.old.seat.me }
        ensures table { place.new.seat.table_id ≡ place.old.seat.table_id }
        ensures sits { Sits M.represents member.new place.new.seat.me }
        ensures same { (member.new.number ≡ member.old.number) ×
            (member.new.peers ≡ member.old.peers) }
        ensures applied { IfOk result (λ how. how ≡ Heard.Applied → (heard : List MessageView) ×
            (heard ≢ []) × CanHear M.represents member.old.machine from.0 member.old.number heard
            × HasHeardAll M.represents member.old.machine from.0 member.old.number heard
            [] member.new.machine
            × (queue : LinkView) × (queue.messages ≡ heard) ×
            HadQueue place.old.seat.me place.new.seat.me
            (link_no member.old.peers from.0 member.old.number) queue) }
        ensures empty { IfOk result (λ how. how ≡ Heard.Empty →
            (member.new.machine ≡ member.old.machine)
            × FoundBare place.old.seat.me place.new.seat.me
            (link_no member.old.peers from.0 member.old.number)) }
        ensures busy { IfOk result (λ how. how ≡ Heard.Busy →
            (member.new.machine ≡ member.old.machine)
            × FoundWord place.old.seat.me place.new.seat.me
            (link_no member.old.peers from.0 member.old.number) Out) }
        ensures looked { HasLooked place.old.seat.me place.new.seat.me
            (link_no member.old.peers from.0 member.old.number) }
    {
        let link = self.link(from.0 as usize, member.number, member.peers);
        match self.take_laden(member, place, link) {
            LinkWord::Bare => Ok(Heard::Empty),
            LinkWord::Out => Ok(Heard::Busy),
            LinkWord::Laden => self.hear_taken(alloc, member, place, from, link),
        }
    }

    /// Hears what is on the link that the seat has, and gives it back.
    fn hear_taken(
        &self,
        alloc: Global,
        member: &mut Member<M>,
        place: &mut Place<Seated<M>, Link>,
        from: MachineNo,
        link: usize,
    ) -> Result<Heard, NoMemory>
        requires table { place.old.seat.table_id ≡ self.now.table.table.shared.table_id }
        requires link { (link < self.now.table.many) ×
            (link ≡ link_no member.old.peers from.0 member.old.number) ×
            (suc from.0 < member.old.peers) }
        requires holds { HasTakenLink M.represents member.old link place.old.seat.me }
        ensures table { place.new.seat.table_id ≡ place.old.seat.table_id }
        ensures sits { Sits M.represents member.new place.new.seat.me }
        ensures same { (member.new.number ≡ member.old.number) ×
            (member.new.peers ≡ member.old.peers) }
        ensures sees { Sees place.old.seat.me place.new.seat.me }
        ensures applied { IfOk result (λ how. how ≡ Heard.Applied → (heard : List MessageView) ×
            (heard ≢ []) × CanHear M.represents member.old.machine from.0 member.old.number heard
            × HasHeardAll M.represents member.old.machine from.0 member.old.number heard
            [] member.new.machine
            × (queue : LinkView) × (queue.messages ≡ heard) ×
            HadQueue place.old.seat.me place.new.seat.me link queue) }
        ensures empty { IfOk result (λ how. how ≡ Heard.Empty →
            (member.new.machine ≡ member.old.machine)
            × (queue : LinkView) × IsBare queue ×
            HadQueue place.old.seat.me place.new.seat.me link queue) }
        ensures home { IfOk result (λ how. how ≢ Heard.Busy) }
    {
        let mut queue = self.table.exchange(place, link, Link::new(alloc));
        if queue.is_empty() {
            self.give_back(member, place, link, queue);
            return Ok(Heard::Empty);
        }
        let heard = hear_all(&mut member.machine, from, member.number, &mut queue);
        self.give_back(member, place, link, queue);
        heard?;
        Ok(Heard::Applied)
    }

    /// Tells another machine all that waits for it. `Nothing` comes exactly where nothing waits.
    /// For want of memory what is not told yet waits still.
    pub fn tell(
        &self,
        alloc: Global,
        member: &mut Member<M>,
        place: &mut Place<Seated<M>, Link>,
        to: MachineNo,
    ) -> Result<Told, NoMemory>
        requires table { place.old.seat.table_id ≡ self.now.table.table.shared.table_id }
        requires links { (member.old.peers * member.old.peers ≡ self.now.table.many) ×
            (member.old.peers < 2 ^ 16) }
        requires to { (suc to.0 < member.old.peers) × (suc member.old.number < member.old.peers) }
        requires sits { Sits M.represents member.old place.old.seat.me }
        ensures table { place.new.seat.table_id ≡ place.old.seat.table_id }
        ensures sits { Sits M.represents member.new place.new.seat.me }
        ensures same { (member.new.number ≡ member.old.number) ×
            (member.new.peers ≡ member.old.peers) }
        ensures moved { IfOk result (λ how. how ≡ Told.Moved → (told : List MessageView) ×
            OfEach M.represents member.old.machine
            (HasToldAll M.represents to.0 told member.new.machine)
            × OfEach M.represents member.old.machine (λ st a m.
            (m.part.out to.0 ≡ map message_read told) × (m.part.out to.0 ≢ []))) }
        ensures nothing { IfOk result (λ how. how ≡ Told.Nothing →
            (member.new.machine ≡ member.old.machine) ×
            OfEach M.represents member.old.machine (λ st a m. m.part.out to.0 ≡ [])) }
        ensures busy { IfOk result (λ how. how ≡ Told.Busy →
            (member.new.machine ≡ member.old.machine)
            × (word : LinkWord) × (word ≢ Bare) ×
            FoundWord place.old.seat.me place.new.seat.me
            (link_no member.old.peers member.old.number to.0) word) }
        ensures sees { Sees place.old.seat.me place.new.seat.me }
    {
        if !member.machine.waits(to) {
            return Ok(Told::Nothing);
        }
        let link = self.link(member.number, to.0 as usize, member.peers);
        if !self.take_home(member, place, link) {
            return Ok(Told::Busy);
        }
        let mut queue = self.table.exchange(place, link, Link::new(alloc));
        let told = tell_all(&mut member.machine, to, &mut queue);
        self.give_back(member, place, link, queue);
        told?;
        Ok(Told::Moved)
    }

    /// Hears the first call that the coordinator has put on the link. `Empty` comes only where none
    /// is there, and `Busy` only where another seat has it. The machine has reached the count of no
    /// failure.
    pub fn hear_call(
        &self,
        alloc: Global,
        member: &mut Member<M>,
        place: &mut Place<Seated<M>, Link>,
    ) -> Result<Heard, NoMemory>
        requires table { place.old.seat.table_id ≡ self.now.table.table.shared.table_id }
        requires links { (member.old.peers * member.old.peers ≡ self.now.table.many) ×
            (member.old.peers < 2 ^ 16) }
        requires inside { suc member.old.number < member.old.peers }
        requires free { IsFree M.represents
            self.now.table.table.shared.key.about.failures.value.items
            self.now.table.table.shared.key.about.done.value.items
            member.old.machine member.old.number }
        requires sits { Sits M.represents member.old place.old.seat.me }
        ensures table { place.new.seat.table_id ≡ place.old.seat.table_id }
        ensures sits { Sits M.represents member.new place.new.seat.me }
        ensures same { (member.new.number ≡ member.old.number) ×
            (member.new.peers ≡ member.old.peers) }
        ensures applied { IfOk result (λ how. how ≡ Heard.Applied → (message : Message) ×
            MayHearCall M.represents member.old.machine message ×
            HasHeard M.represents member.old.machine message member.new.machine) }
        ensures empty { IfOk result (λ how. how ≡ Heard.Empty →
            (member.new.machine ≡ member.old.machine)
            × FoundBare place.old.seat.me place.new.seat.me
            (link_no member.old.peers (member.old.peers - 1) member.old.number)) }
        ensures busy { IfOk result (λ how. how ≡ Heard.Busy →
            (member.new.machine ≡ member.old.machine)
            × FoundWord place.old.seat.me place.new.seat.me
            (link_no member.old.peers (member.old.peers - 1) member.old.number) Out) }
        ensures looked { HasLooked place.old.seat.me place.new.seat.me
            (link_no member.old.peers (member.old.peers - 1) member.old.number) }
    {
        let link = self.link(member.peers - 1, member.number, member.peers);
        match self.take_laden(member, place, link) {
            LinkWord::Bare => return Ok(Heard::Empty),
            LinkWord::Out => return Ok(Heard::Busy),
            LinkWord::Laden => (),
        }
        let mut queue = self.table.exchange(place, link, Link::new(alloc));
        let heard = hear_first(&mut member.machine, &mut queue);
        self.give_back(member, place, link, queue);
        if heard? {
            Ok(Heard::Applied)
        } else {
            Ok(Heard::Empty)
        }
    }

    /// Tells the coordinator the first report that waits. `Nothing` comes only where none waits.
    pub fn tell_report(
        &self,
        alloc: Global,
        member: &mut Member<M>,
        place: &mut Place<Seated<M>, Link>,
    ) -> Result<Told, NoMemory>
        requires table { place.old.seat.table_id ≡ self.now.table.table.shared.table_id }
        requires links { (member.old.peers * member.old.peers ≡ self.now.table.many) ×
            (member.old.peers < 2 ^ 16) }
        requires inside { suc member.old.number < member.old.peers }
        requires sits { Sits M.represents member.old place.old.seat.me }
        ensures table { place.new.seat.table_id ≡ place.old.seat.table_id }
        ensures sits { Sits M.represents member.new place.new.seat.me }
        ensures same { (member.new.number ≡ member.old.number) ×
            (member.new.peers ≡ member.old.peers) }
        ensures moved { IfOk result (λ how. how ≡ Told.Moved → (message : Message) ×
            OfEach M.represents member.old.machine
            (IsReporting M.represents message member.new.machine)) }
        ensures nothing { IfOk result (λ how. how ≡ Told.Nothing →
            OfEach M.represents member.old.machine (λ st a m. HasNext m.out → ⊥)) }
        ensures still { IfOk result (λ how. how ≡ Told.Nothing →
            StandsStill M.represents member.old.machine member.new.machine) }
        ensures busy { IfOk result (λ how. how ≡ Told.Busy →
            (member.new.machine ≡ member.old.machine)
            × (word : LinkWord) × (word ≢ Bare) ×
            FoundWord place.old.seat.me place.new.seat.me
            (link_no member.old.peers member.old.number (member.old.peers - 1)) word) }
        ensures sees { Sees place.old.seat.me place.new.seat.me }
    {
        if !member.machine.has_report() {
            return Ok(Told::Nothing);
        }
        let link = self.link(member.number, member.peers - 1, member.peers);
        if !self.take_home(member, place, link) {
            return Ok(Told::Busy);
        }
        let mut queue = self.table.exchange(place, link, Link::new(alloc));
        let told = tell_first(&mut member.machine, &mut queue);
        self.give_back(member, place, link, queue);
        if told? {
            Ok(Told::Moved)
        } else {
            Ok(Told::Nothing)
        }
    }

    /// Takes a link on which something may be, and returns the word that it found. The seat has the
    /// link where that is `Laden`.
    fn take_laden(
        &self,
        member: &Member<M>,
        place: &mut Place<Seated<M>, Link>,
        link: usize,
    ) -> LinkWord
        requires table { place.old.seat.table_id ≡ self.now.table.table.shared.table_id }
        requires link { link < self.now.table.many }
        requires sits { Sits M.represents member.now place.old.seat.me }
        ensures table { place.new.seat.table_id ≡ place.old.seat.table_id }
        ensures taken { result ≡ Laden →
            HasTakenLink M.represents member.now link place.new.seat.me }
        ensures missed { result ≢ Laden → Sits M.represents member.now place.new.seat.me }
        ensures found { FoundWord place.old.seat.me place.new.seat.me link result }
    {
        let word = self.table.look(place, link);
        if word != LinkWord::Laden {
            return word;
        }
        self.take(member, place, link, LinkWord::Laden)
    }

    /// Takes a link that is at home, and says whether it has.
    fn take_home(&self, member: &Member<M>, place: &mut Place<Seated<M>, Link>, link: usize) -> bool
        requires table { place.old.seat.table_id ≡ self.now.table.table.shared.table_id }
        requires link { link < self.now.table.many }
        requires sits { Sits M.represents member.now place.old.seat.me }
        ensures table { place.new.seat.table_id ≡ place.old.seat.table_id }
        ensures taken { result ≡ true →
            HasTakenLink M.represents member.now link place.new.seat.me }
        ensures missed { result ≡ false → Sits M.represents member.now place.new.seat.me }
        ensures found { result ≡ false → (word : LinkWord) × (word ≢ Bare) ×
            FoundWord place.old.seat.me place.new.seat.me link word }
        ensures sees { Sees place.old.seat.me place.new.seat.me }
    {
        let found = self.take(member, place, link, LinkWord::Bare);
        match found {
            LinkWord::Bare => true,
            LinkWord::Out => false,
            LinkWord::Laden => self.take_laden_or_bare(member, place, link),
        }
    }

    /// Takes a link on which something was, also where it is gone meanwhile, and says whether it
    /// has.
    fn take_laden_or_bare(
        &self,
        member: &Member<M>,
        place: &mut Place<Seated<M>, Link>,
        link: usize,
    ) -> bool
        requires table { place.old.seat.table_id ≡ self.now.table.table.shared.table_id }
        requires link { link < self.now.table.many }
        requires sits { Sits M.represents member.now place.old.seat.me }
        ensures table { place.new.seat.table_id ≡ place.old.seat.table_id }
        ensures taken { result ≡ true →
            HasTakenLink M.represents member.now link place.new.seat.me }
        ensures missed { result ≡ false → Sits M.represents member.now place.new.seat.me }
        ensures found { result ≡ false → (word : LinkWord) × (word ≢ Bare) ×
            FoundWord place.old.seat.me place.new.seat.me link word }
        ensures sees { Sees place.old.seat.me place.new.seat.me }
    {
        match self.take(member, place, link, LinkWord::Laden) {
            LinkWord::Laden => true,
            LinkWord::Out => false,
            LinkWord::Bare => match self.take(member, place, link, LinkWord::Bare) {
                LinkWord::Bare => true,
                _ => false,
            },
        }
    }

    /// Takes a link whose word is still the expected one, and returns the word that it found. The
    /// seat has the link where that is the expected one.
    fn take(
        &self,
        member: &Member<M>,
        place: &mut Place<Seated<M>, Link>,
        link: usize,
        expected: LinkWord,
    ) -> LinkWord
        requires table { place.old.seat.table_id ≡ self.now.table.table.shared.table_id }
        requires link { (link < self.now.table.many) × (expected ≢ Out) }
        requires sits { Sits M.represents member.now place.old.seat.me }
        ensures table { place.new.seat.table_id ≡ place.old.seat.table_id }
        ensures taken { result ≡ expected →
            HasTakenLink M.represents member.now link place.new.seat.me }
        ensures missed { result ≢ expected → Sits M.represents member.now place.new.seat.me }
        ensures found { place.new.seat.me.0.seen ≡
            sight (word_at link) (number_in result) None ∷ place.old.seat.me.0.seen }
    {
        self.table
            .take::<Brand, Member<M>>(place, link, expected, member)
    }

    /// Gives the link back with this queue.
    fn give_back(
        &self,
        member: &Member<M>,
        place: &mut Place<Seated<M>, Link>,
        link: usize,
        queue: Link,
    )
        requires table { place.old.seat.table_id ≡ self.now.table.table.shared.table_id }
        requires link { link < self.now.table.many }
        requires holds { (old : Member M) × (q : LinkView) × (r : LinkView) ×
            HoldsLink place.old.seat.me (Node (at_rest old)) [] link q r ×
            (member.now.number ≡ old.number)
            × CarriesLink number_of
            (HasBeenLed M.represents self.now.table.table.shared.key.about.failures.value.items
            self.now.table.table.shared.key.about.done.value.items
            (standing_parts self.now.table.table.shared.key.about.machines
            self.now.table.table.shared.key.about.opening.value)
            self.now.table.table.shared.key.about.machines) link (Node (at_rest old)) q
            (Node (at_rest member.now)) queue }
        ensures table { place.new.seat.table_id ≡ place.old.seat.table_id }
        ensures sits { Sits M.represents member.now place.new.seat.me }
        ensures gave { (old : Member M) (q r : LinkView) →
            HoldsLink place.old.seat.me (Node (at_rest old)) [] link q r →
            HadQueue place.old.seat.me place.new.seat.me link q }
        ensures sees { Sees place.old.seat.me place.new.seat.me }
    {
        let word = word_of(&queue);
        self.table.exchange(place, link, queue);
        self.table
            .give::<Brand, Member<M>>(place, link, word, member);
    }
}
