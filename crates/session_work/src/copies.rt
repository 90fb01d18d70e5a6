// The copies: from cards and files, to the printer and to new files.
ghost use Rattle.std.specs.Prelude.{◌≡◌, List, [], ℕ, Option, Some, None, true, false, IsTrue};
ghost use Rattle.std.specs.FinMap as fin;
ghost use Rattle.disk_layout.specs.Files.{files as file_map};
ghost use Rattle.disk_files.specs.Answers.{FaultsOnly, stays_sound};
ghost use Rattle.solo_commands.specs.Commands.{is_printer};
ghost use Rattle.solo_task.specs.Copying.{copies, copies_cards, copies_file, with_cards};
ghost use Rattle.solo_task.specs.Needs.{comes_to};
ghost use Rattle.solo_work.specs.Paper.{IsHand};
ghost use Rattle.session_work.specs.Pausing.{MayGoOn, prints_cards, stores_these};
ghost use Rattle.session_work.specs.Working.{of_work, WorkedSo};

use crate::ends::as_work;
use crate::session::{Session, UnderWay};
use disk_files::FileArea;
use file_commands::{
    Copied, answer_line, copy_file, find, lines_to_print, store_cards, text_of_cards,
};
use solo_base::{Ident, LineList};
use solo_commands::{is_cards, is_printer};
use solo_devices::Area;
use solo_procs::{Need, WorkFault};

impl Session {
    /// `copy(from, to)`
    pub(crate) fn copy<A: Area>(
        &mut self,
        from: &Ident,
        to: &Ident,
        files: &mut FileArea<A>,
    ) -> Result<Need, WorkFault>
        requires sound { IsTrue files.old.sound }
        requires may { MayGoOn self.old.under_way }
        requires paper { IsHand self.old.paper 0 [] }
        ensures worked { WorkedSo 0 (λ all c. c ≡ comes_to [] all (copies all from.now to.now))
            (A.pages files.old.area) result self.new (A.pages files.new.area) }
        ensures may { MayGoOn self.new.under_way }
        ensures sound { files.new.sound ≡ stays_sound (of_work result) }
        ensures cause { FaultsOnly (A.faults files.old.area) (A.faults files.new.area) (of_work result) }
    {
        if is_cards(from) {
            return self.copy_cards(to, files);
        }
        self.copy_from(from, to, files)
    }

    // From the cards.
    fn copy_cards<A: Area>(
        &mut self,
        to: &Ident,
        files: &mut FileArea<A>,
    ) -> Result<Need, WorkFault>
        requires sound { IsTrue files.old.sound }
        requires may { MayGoOn self.old.under_way }
        requires paper { IsHand self.old.paper 0 [] }
        ensures worked { WorkedSo 0 (λ all c. c ≡ comes_to [] all (copies_cards all to.now))
            (A.pages files.old.area) result self.new (A.pages files.new.area) }
        ensures may { MayGoOn self.new.under_way }
        ensures sound { files.new.sound ≡ stays_sound (of_work result) }
        ensures cause { FaultsOnly (A.faults files.old.area) (A.faults files.new.area) (of_work result) }
    {
        if is_printer(to) {
            self.set(UnderWay::PrintsCards);
            return Ok(Need::Cards);
        }
        match find(files, to) {
            Ok(Some(_)) => self.answer(Ok(answer_line(b"COPY", b"FILE EXISTS"))),
            Ok(None) => {
                self.set(UnderWay::StoresCards(*to));
                Ok(Need::Cards)
            }
            Err(fault) => Err(as_work(fault)),
        }
    }

    // From a file.
    fn copy_from<A: Area>(
        &mut self,
        from: &Ident,
        to: &Ident,
        files: &mut FileArea<A>,
    ) -> Result<Need, WorkFault>
        requires sound { IsTrue files.old.sound }
        requires may { MayGoOn self.old.under_way }
        requires paper { IsHand self.old.paper 0 [] }
        ensures worked { WorkedSo 0 (λ all c. c
            ≡ comes_to [] all (copies_file (fin.get all from.now) all to.now)) (A.pages files.old.area) result
            self.new (A.pages files.new.area) }
        ensures may { MayGoOn self.new.under_way }
        ensures sound { files.new.sound ≡ stays_sound (of_work result) }
        ensures cause { FaultsOnly (A.faults files.old.area) (A.faults files.new.area) (of_work result) }
    {
        if is_printer(to) {
            return self.print_file(from, to, files);
        }
        let copied = copy_file(self.alloc, files, from, to);
        self.answer(copied)
    }

    // Of a file to the printer.
    fn print_file<A: Area>(
        &mut self,
        from: &Ident,
        to: &Ident,
        files: &mut FileArea<A>,
    ) -> Result<Need, WorkFault>
        requires sound { IsTrue files.old.sound }
        requires may { MayGoOn self.old.under_way }
        requires paper { IsHand self.old.paper 0 [] }
        requires printer { is_printer to.now ≡ true }
        ensures worked { WorkedSo 0 (λ all c. c
            ≡ comes_to [] all (copies_file (fin.get all from.now) all to.now)) (A.pages files.old.area) result
            self.new (A.pages files.new.area) }
        ensures may { MayGoOn self.new.under_way }
        ensures sound { files.new.sound ≡ stays_sound (of_work result) }
        ensures cause { FaultsOnly (A.faults files.old.area) (A.faults files.new.area) (of_work result) }
    {
        let _ = to;
        match lines_to_print(self.alloc, files, from) {
            Ok(Copied::Lines(lines)) => self.print_lines(lines),
            Ok(Copied::Answer(line)) => self.answer(Ok(line)),
            Err(fault) => Err(as_work(fault)),
        }
    }

    /// The cards of a card file are printed, if none is spoiled.
    pub(crate) fn print_cards(&mut self, cards: &LineList, spoiled: bool) -> Result<Need, WorkFault>
        requires may { MayGoOn self.old.under_way }
        ensures worked { (before : Option (List (List ℕ))) (pages : ℕ) (hand : List (List ℕ))
            → IsHand self.old.paper pages hand
            → WorkedSo pages (λ all c. c ≡ comes_to hand all (with_cards prints_cards
            (record { cards = cards.now; spoiled = spoiled }))) before result self.new before }
        ensures may { MayGoOn self.new.under_way }
        ensures sound { stays_sound (of_work result) ≡ true }
    {
        if spoiled {
            return self.answer(Ok(answer_line(b"COPY", b"SPOILED CARD")));
        }
        match text_of_cards(self.alloc, cards) {
            Ok(text) => self.print_text(&text),
            Err(_) => Err(WorkFault::NoMemory),
        }
    }

    /// The cards of a card file become a new file, if none is spoiled.
    pub(crate) fn store_cards<A: Area>(
        &mut self,
        to: &Ident,
        cards: &LineList,
        spoiled: bool,
        files: &mut FileArea<A>,
    ) -> Result<Need, WorkFault>
        requires sound { IsTrue files.old.sound }
        requires may { MayGoOn self.old.under_way }
        ensures worked { (pages : ℕ) (hand : List (List ℕ)) → IsHand self.old.paper pages hand
            → WorkedSo pages (λ all c. (fin.get all to.now ≡ None)
            × (c ≡ comes_to hand all (with_cards (stores_these all to.now)
            (record { cards = cards.now; spoiled = spoiled })))) (A.pages files.old.area) result self.new
            (A.pages files.new.area) }
        ensures may { MayGoOn self.new.under_way }
        ensures sound { files.new.sound ≡ stays_sound (of_work result) }
        ensures cause { FaultsOnly (A.faults files.old.area) (A.faults files.new.area) (of_work result) }
    {
        if spoiled {
            return self.answer(Ok(answer_line(b"COPY", b"SPOILED CARD")));
        }
        match text_of_cards(self.alloc, cards) {
            Ok(text) => {
                let stored = store_cards(files, to, text);
                self.answer(stored)
            }
            Err(_) => Err(WorkFault::NoMemory),
        }
    }
}
