//! What the coordinator's seat tells machines and hears of them.
ghost use Rattle.std.specs.Prelude.{◌≡◌, ◌≢◌, ◌⊎◌, ◌∷◌, ◌*◌, ◌^◌, ◌<◌, ℕ, suc, true, false, List, None, Some, IfOk, slice_index_or};
ghost use Rattle.cluster_step.specs.clusters.Links.{LinkView};
ghost use Rattle.coordinator.specs.coord_core.Calls.{HasHandedOver, HasTakenReport, MayReport};
ghost use Rattle.coordinator.specs.coord_core.Coordinators.{no_outbox};
ghost use Rattle.coordinator.specs.machine_api.Promises.{MessageView, message_view};
ghost use Rattle.link_tables.specs.Rule.{CarriesLink};
ghost use Rattle.link_tables.specs.Seats.{HoldsLink, number_in, sight, word_at};
ghost use Rattle.link_tables.specs.declared.words.LinkWord.{LinkWord};
ghost use Rattle.link_tables.specs.declared.words.LinkWord.TheVariants.{Bare, Laden, Out};
ghost use Rattle.wire.specs.declared.wire_msgs.messages.Message.{Message};
ghost use Rattle.wire.specs.outboxes.Outboxes.{has_waiting};
ghost use Rattle.wire_board.specs.Led.{HasBeenLed, Lead, link_no, number_of};
ghost use Rattle.wire_board.specs.Openings.{standing_parts};
ghost use Rattle.wire_board.specs.Seats.{HasTakenLead, Leads};
ghost use Rattle.wire_board.specs.Sights.{FoundBare, FoundWord, HadQueue, HasLooked, Sees};

use crate::boards::{Board, word_of};
use crate::passing::{Heard, Told};
use crate::reports::{hear_one, tell_one};
use crate::standings::{Leading, Seated};
use cluster_step::clusters::{Link, SavingMachine};
use gl_base::{MachineNo, NoMemory};
use link_tables::{LinkWord, Place};
use std::alloc::Global;
use std::marker::Brand;

impl<M: SavingMachine> Board<M> {
    /// Tells a machine the first call that waits for it. `Nothing` comes only where none waits.
    pub fn tell_call(
        &self,
        alloc: Global,
        lead: &mut Leading,
        place: &mut Place<Seated<M>, Link>,
        to: MachineNo,
    ) -> Result<Told, NoMemory>
        requires table { place.old.seat.table_id ≡ self.now.table.table.shared.table_id }
        requires links { (suc lead.old.number * suc lead.old.number ≡ self.now.table.many) ×
            (suc lead.old.number < 2 ^ 16) }
        requires to { to.0 < lead.old.number }
        requires sits { (others : List (Seated M)) × Leads lead.old others place.old.seat.me }
        ensures table { place.new.seat.table_id ≡ place.old.seat.table_id }
        ensures sits { (others : List (Seated M)) → Leads lead.old others place.old.seat.me →
            Leads lead.new others place.new.seat.me }
        ensures number { lead.new.number ≡ lead.old.number }
        ensures moved { IfOk result (λ how. how ≡ Told.Moved → (message : Message) ×
            HasHandedOver lead.old.coordinator lead.new.coordinator to.0 (Some message)) }
        ensures nothing { IfOk result (λ how. how ≡ Told.Nothing →
            (lead.new.coordinator ≡ lead.old.coordinator)
            × ((has_waiting (slice_index_or lead.old.coordinator.out.machines to.0 no_outbox) ≡
            false) ⊎ HasHandedOver lead.old.coordinator lead.new.coordinator to.0 None)) }
        ensures busy { IfOk result (λ how. how ≡ Told.Busy →
            (lead.new.coordinator ≡ lead.old.coordinator)
            × (word : LinkWord) × (word ≢ Laden) ×
            FoundWord place.old.seat.me place.new.seat.me
            (link_no (suc lead.old.number) lead.old.number to.0) word) }
        ensures sees { Sees place.old.seat.me place.new.seat.me }
    {
        if !lead.coordinator.waits(to) {
            return Ok(Told::Nothing);
        }
        let link = self.link(lead.number, to.0 as usize, lead.number + 1);
        if !self.take_home_lead(lead, place, link) {
            return Ok(Told::Busy);
        }
        let mut queue = self.table.exchange(place, link, Link::new(alloc));
        let told = tell_one(&mut lead.coordinator, &mut queue, to);
        self.give_back_lead(lead, place, link, queue);
        if told? {
            Ok(Told::Moved)
        } else {
            Ok(Told::Nothing)
        }
    }

    /// Takes the first report of a machine off the link from it. `Empty` comes only where none is
    /// there, and `Busy` only where another seat has the link.
    pub fn hear_report(
        &self,
        alloc: Global,
        lead: &mut Leading,
        place: &mut Place<Seated<M>, Link>,
        from: MachineNo,
    ) -> Heard
        requires table { place.old.seat.table_id ≡ self.now.table.table.shared.table_id }
        requires links { (suc lead.old.number * suc lead.old.number ≡ self.now.table.many) ×
            (suc lead.old.number < 2 ^ 16) }
        requires from { from.0 < lead.old.number }
        requires sits { (others : List (Seated M)) × Leads lead.old others place.old.seat.me }
        ensures table { place.new.seat.table_id ≡ place.old.seat.table_id }
        ensures sits { (others : List (Seated M)) → Leads lead.old others place.old.seat.me →
            Leads lead.new others place.new.seat.me }
        ensures number { lead.new.number ≡ lead.old.number }
        ensures applied { result ≡ Heard.Applied → (message : Message) ×
            MayReport lead.old.coordinator from.0 (message_view message) ×
            HasTakenReport lead.old.coordinator lead.new.coordinator from.0 (message_view message)
            × (queue : LinkView) × (rest : List MessageView) ×
            (queue.messages ≡ message_view message ∷ rest) ×
            HadQueue place.old.seat.me place.new.seat.me
            (link_no (suc lead.old.number) from.0 lead.old.number) queue }
        ensures empty { result ≡ Heard.Empty → (lead.new.coordinator ≡ lead.old.coordinator)
            × FoundBare place.old.seat.me place.new.seat.me
            (link_no (suc lead.old.number) from.0 lead.old.number) }
        ensures busy { result ≡ Heard.Busy → (lead.new.coordinator ≡ lead.old.coordinator)
            × FoundWord place.old.seat.me place.new.seat.me
            (link_no (suc lead.old.number) from.0 lead.old.number) Out }
        ensures looked { HasLooked place.old.seat.me place.new.seat.me
            (link_no (suc lead.old.number) from.0 lead.old.number) }
    {
        let link = self.link(from.0 as usize, lead.number, lead.number + 1);
        match self.take_lead(lead, place, link, LinkWord::Laden) {
            LinkWord::Bare => return Heard::Empty,
            LinkWord::Out => return Heard::Busy,
            LinkWord::Laden => (),
        }
        let mut queue = self.table.exchange(place, link, Link::new(alloc));
        let some = hear_one(&mut lead.coordinator, &mut queue, from);
        self.give_back_lead(lead, place, link, queue);
        if some { Heard::Applied } else { Heard::Empty }
    }

    /// Takes a link that is at home, and says whether it has.
    fn take_home_lead(
        &self,
        lead: &Leading,
        place: &mut Place<Seated<M>, Link>,
        link: usize,
    ) -> bool
        requires table { place.old.seat.table_id ≡ self.now.table.table.shared.table_id }
        requires link { link < self.now.table.many }
        requires sits { (others : List (Seated M)) × Leads lead.now others place.old.seat.me }
        ensures table { place.new.seat.table_id ≡ place.old.seat.table_id }
        ensures taken { result ≡ true → (others : List (Seated M)) →
            Leads lead.now others place.old.seat.me →
            HasTakenLead M.represents lead.now others link place.new.seat.me }
        ensures missed { result ≡ false → (others : List (Seated M)) →
            Leads lead.now others place.old.seat.me → Leads lead.now others place.new.seat.me }
        ensures found { result ≡ false → (word : LinkWord) × (word ≢ Laden) ×
            FoundWord place.old.seat.me place.new.seat.me link word }
        ensures sees { Sees place.old.seat.me place.new.seat.me }
    {
        match self.take_lead(lead, place, link, LinkWord::Bare) {
            LinkWord::Bare => true,
            LinkWord::Out => false,
            LinkWord::Laden => match self.take_lead(lead, place, link, LinkWord::Laden) {
                LinkWord::Laden => true,
                _ => false,
            },
        }
    }

    /// Takes a link whose word is still the expected one, and returns the word that it found. The
    /// seat has the link where that is the expected one.
    fn take_lead(
        &self,
        lead: &Leading,
        place: &mut Place<Seated<M>, Link>,
        link: usize,
        expected: LinkWord,
    ) -> LinkWord
        requires table { place.old.seat.table_id ≡ self.now.table.table.shared.table_id }
        requires link { (link < self.now.table.many) × (expected ≢ Out) }
        requires sits { (others : List (Seated M)) × Leads lead.now others place.old.seat.me }
        ensures table { place.new.seat.table_id ≡ place.old.seat.table_id }
        ensures taken { result ≡ expected → (others : List (Seated M)) →
            Leads lead.now others place.old.seat.me →
            HasTakenLead M.represents lead.now others link place.new.seat.me }
        ensures missed { result ≢ expected → (others : List (Seated M)) →
            Leads lead.now others place.old.seat.me → Leads lead.now others place.new.seat.me }
        ensures found { place.new.seat.me.0.seen ≡
            sight (word_at link) (number_in result) None ∷ place.old.seat.me.0.seen }
    {
        self.table
            .take::<Brand, Leading>(place, link, expected, lead)
    }

    /// Gives the link back with this queue.
    fn give_back_lead(
        &self,
        lead: &Leading,
        place: &mut Place<Seated<M>, Link>,
        link: usize,
        queue: Link,
    )
        requires table { place.old.seat.table_id ≡ self.now.table.table.shared.table_id }
        requires link { link < self.now.table.many }
        requires holds { (old : Leading) × (others : List (Seated M)) × (q : LinkView) ×
            (r : LinkView) × HoldsLink place.old.seat.me (Lead old) others link q r ×
            (lead.now.number ≡ old.number)
            × CarriesLink number_of
            (HasBeenLed M.represents self.now.table.table.shared.key.about.failures.value.items
            self.now.table.table.shared.key.about.done.value.items
            (standing_parts self.now.table.table.shared.key.about.machines
            self.now.table.table.shared.key.about.opening.value)
            self.now.table.table.shared.key.about.machines) link (Lead old)
            q (Lead lead.now) queue }
        ensures table { place.new.seat.table_id ≡ place.old.seat.table_id }
        ensures gave { (old : Leading) (others : List (Seated M)) (q r : LinkView) →
            HoldsLink place.old.seat.me (Lead old) others link q r →
            HadQueue place.old.seat.me place.new.seat.me link q }
        ensures sees { Sees place.old.seat.me place.new.seat.me }
        ensures sits { (old : Leading) (others : List (Seated M)) (q r : LinkView) →
            HoldsLink place.old.seat.me (Lead old) others link q r →
            Leads lead.now others place.new.seat.me }
    {
        let word = word_of(&queue);
        self.table.exchange(place, link, queue);
        self.table.give::<Brand, Leading>(place, link, word, lead);
    }
}
