ghost use Rattle.std.specs.Prelude.{◌≡◌, ℕ, List, [], Some, IsTrue, IfErr, IfOk, false};
ghost use Rattle.solo_base.specs.declared.system_call.SysCall.TheVariants as calls;
ghost use Rattle.solo_base.specs.Fits.{Fits};
ghost use Rattle.disk_layout.specs.Files.{files as file_map};
ghost use Rattle.disk_files.specs.declared.fault.FileFault.TheVariants.{DiskFault};
ghost use Rattle.disk_files.specs.Answers.{FaultsOnly, stays_sound};
ghost use Rattle.program_task.specs.Program.{begins_with};
ghost use Rattle.program_task.specs.OpenFiles.{open_as, with_open};
ghost use Rattle.solo_base.specs.Arguments.{word_name};
ghost use Rattle.prog_stack.specs.Answers.{AnswersAlone, AnswersBy, AnswersCall, ComesAnywhere, OpensSo, IsOwn, is_free, opened_name};

use crate::arguments::{argument, argument_of};
use crate::file_calls::{find, get_page, length_of, look_up, put_page};
use disk_files::{FileArea, FileFault};
use solo_base::{ARG_LIMIT, Arg, ArgList, IDENT_LENGTH, Ident, Page, SysCall, SysReply};
use solo_devices::Area;
use std::marker::Model;
use std::mem;

/// What one program has of its own: the arguments that it was given, and how many of them it has read; those
/// that it has written; and the files that it has open as 1 and as 2.
#[derive(Drop)]
pub struct Own {
    incoming: ArgList,
    read: usize,
    outgoing: ArgList,
    first: Option<Ident>,
    second: Option<Ident>,
}

impl Model for Own {
    ghost use Rattle.program_task.specs.Program.{Own};
    ghost use Rattle.prog_stack.specs.OwnShown.{own_shown};

    ghost Value = { Own };

    ghost view = { λ o. own_shown o.incoming o.read o.outgoing o.first o.second };
}

impl Own {
    /// What a program begins with.
    pub fn new(args: ArgList) -> Own
        ensures { result ≡ begins_with args }
    {
        Own {
            incoming: args,
            read: 0,
            outgoing: ArgList::new(),
            first: None,
            second: None,
        }
    }

    /// Gives away the arguments that were written.
    pub fn hand_over(&mut self) -> ArgList
        ensures given { result ≡ self.old.outgoing }
        ensures rest { self.new ≡ record self.old { outgoing = [] } }
    {
        mem::replace(&mut self.outgoing, ArgList::new())
    }

    /// Takes the arguments that a called program wrote, in place of those that weren't read.
    pub fn take_back(&mut self, called: Own)
        ensures { self.new ≡ record self.old { incoming = called.outgoing; outgoing = [] } }
    {
        let Own {
            incoming: _,
            read: _,
            outgoing,
            first: _,
            second: _,
        } = called;
        self.incoming = outgoing;
        self.read = 0;
        self.outgoing = ArgList::new();
    }

    /// Serves a call that is no device's, and runs no program.
    pub fn serve<A: Area>(
        &mut self,
        call: &SysCall,
        files: &mut FileArea<A>,
    ) -> Result<SysReply, FileFault>
        requires own { IsOwn call.now }
        requires sound { IsTrue files.old.sound }
        ensures ok { IfOk result (λ reply. AnswersCall call.now self.old (A.pages files.old.area) reply
            self.new (A.pages files.new.area)) }
        ensures fits { IfOk result (λ reply. Fits call.now reply) }
        ensures anywhere { ComesAnywhere call.now self.old result self.new }
        ensures own { IsOwn call.now }
        ensures refusals { IfErr result (λ fault. fault ≡ DiskFault) }
        ensures sound { files.new.sound ≡ stays_sound result }
        ensures cause { FaultsOnly (A.faults files.old.area) (A.faults files.new.area) result }
    {
        match call {
            SysCall::Open { f, name } => self.open(f, name, files),
            SysCall::Close(f) => Ok(self.close(f)),
            SysCall::Get { f, p } => self.get(f, p, files),
            SysCall::Put { f, p, page } => self.put(f, p, page, files),
            SysCall::Length(f) => self.length(f, files),
            SysCall::Lookup(name) => look_up(files, name),
            SysCall::ReadArg => Ok(self.read_arg()),
            SysCall::WriteArg { tag, number, name } => Ok(self.write_arg(tag, number, name)),
            _ => Ok(SysReply::CallError),
        }
    }

    // READARG.
    fn read_arg(&mut self) -> SysReply
        ensures row { AnswersAlone calls.ReadArg self.old result self.new }
        ensures fits { Fits calls.ReadArg result }
    {
        if self.read >= self.incoming.len() {
            return argument(Arg::Nil);
        }
        let first = self.incoming.get(self.read);
        self.read += 1;
        argument(first)
    }

    // WRITEARG.
    fn write_arg(&mut self, tag: &i16, number: &i16, name: &[i16; IDENT_LENGTH]) -> SysReply
        ensures row { AnswersAlone (calls.WriteArg tag.now number.now name.now) self.old result self.new }
        ensures fits { Fits (calls.WriteArg tag.now number.now name.now) result }
    {
        let written = match argument_of(*tag, *number, name) {
            Some(written) => written,
            None => return SysReply::CallError,
        };
        if self.outgoing.len() >= ARG_LIMIT {
            return SysReply::CallError;
        }
        self.outgoing.push(written);
        SysReply::Done
    }

    // OPEN.
    fn open<A: Area>(
        &mut self,
        f: &i16,
        name: &[i16; IDENT_LENGTH],
        files: &mut FileArea<A>,
    ) -> Result<SysReply, FileFault>
        requires { IsTrue files.old.sound }
        ensures row { (pages : List (List ℕ)) → A.pages files.old.area ≡ Some pages
            → IfOk result (λ reply. AnswersBy (file_map pages) (calls.Open f.now name.now) self.old reply
            self.new) }
        ensures fits { IfOk result (λ reply. Fits (calls.Open f.now name.now) reply) }
        ensures anywhere { IfOk result (λ reply. OpensSo f.now (word_name name.now) self.old reply self.new) }
        ensures left { A.pages files.new.area ≡ A.pages files.old.area }
        ensures refusals { IfErr result (λ fault. fault ≡ DiskFault) }
        ensures sound { files.new.sound ≡ stays_sound result }
        ensures cause { FaultsOnly (A.faults files.old.area) (A.faults files.new.area) result }
    {
        if !self.is_free(f) {
            return Ok(SysReply::CallError);
        }
        let name = match Ident::of_words(name) {
            Some(name) => name,
            None => return Ok(SysReply::Opened(false)),
        };
        match find(files, &name) {
            Ok(Some(_)) => {
                self.set(f, Some(name));
                Ok(SysReply::Opened(true))
            }
            Ok(None) => Ok(SysReply::Opened(false)),
            Err(fault) => Err(fault),
        }
    }

    // CLOSE.
    fn close(&mut self, f: &i16) -> SysReply
        ensures row { AnswersAlone (calls.Close f.now) self.old result self.new }
        ensures fits { Fits (calls.Close f.now) result }
    {
        if self.opened(f).is_none() {
            return SysReply::CallError;
        }
        self.set(f, None);
        SysReply::Done
    }

    // GET.
    fn get<A: Area>(&self, f: &i16, p: &i16, files: &mut FileArea<A>) -> Result<SysReply, FileFault>
        requires { IsTrue files.old.sound }
        ensures row { (pages : List (List ℕ)) → A.pages files.old.area ≡ Some pages
            → IfOk result (λ reply. AnswersBy (file_map pages) (calls.Get f.now p.now) self.now reply
            self.now) }
        ensures fits { IfOk result (λ reply. Fits (calls.Get f.now p.now) reply) }
        ensures left { A.pages files.new.area ≡ A.pages files.old.area }
        ensures refusals { IfErr result (λ fault. fault ≡ DiskFault) }
        ensures sound { files.new.sound ≡ stays_sound result }
        ensures cause { FaultsOnly (A.faults files.old.area) (A.faults files.new.area) result }
    {
        match self.opened(f) {
            Some(name) => get_page(files, &name, p),
            None => Ok(SysReply::CallError),
        }
    }

    // PUT.
    fn put<A: Area>(
        &self,
        f: &i16,
        p: &i16,
        page: &Page,
        files: &mut FileArea<A>,
    ) -> Result<SysReply, FileFault>
        requires { IsTrue files.old.sound }
        ensures row { IfOk result (λ reply. AnswersCall (calls.Put f.now p.now page.now) self.now
            (A.pages files.old.area) reply self.now (A.pages files.new.area)) }
        ensures fits { IfOk result (λ reply. Fits (calls.Put f.now p.now page.now) reply) }
        ensures refusals { IfErr result (λ fault. fault ≡ DiskFault) }
        ensures sound { files.new.sound ≡ stays_sound result }
        ensures cause { FaultsOnly (A.faults files.old.area) (A.faults files.new.area) result }
    {
        match self.opened(f) {
            Some(name) => put_page(files, &name, p, page),
            None => Ok(SysReply::CallError),
        }
    }

    // LENGTH.
    fn length<A: Area>(&self, f: &i16, files: &mut FileArea<A>) -> Result<SysReply, FileFault>
        requires { IsTrue files.old.sound }
        ensures row { (pages : List (List ℕ)) → A.pages files.old.area ≡ Some pages
            → IfOk result (λ reply. AnswersBy (file_map pages) (calls.Length f.now) self.now reply self.now) }
        ensures fits { IfOk result (λ reply. Fits (calls.Length f.now) reply) }
        ensures left { A.pages files.new.area ≡ A.pages files.old.area }
        ensures refusals { IfErr result (λ fault. fault ≡ DiskFault) }
        ensures sound { files.new.sound ≡ stays_sound result }
        ensures cause { FaultsOnly (A.faults files.old.area) (A.faults files.new.area) result }
    {
        match self.opened(f) {
            Some(name) => length_of(files, &name),
            None => Ok(SysReply::CallError),
        }
    }

    // Whether a file may be opened as `f`.
    fn is_free(&self, f: &i16) -> bool
        ensures { result ≡ is_free (open_as self.now f.now) }
    {
        match f {
            1 => self.first.is_none(),
            2 => self.second.is_none(),
            _ => false,
        }
    }

    // The name of the file that is open as `f`.
    fn opened(&self, f: &i16) -> Option<Ident>
        ensures { result ≡ opened_name (open_as self.now f.now) }
    {
        match f {
            1 => self.first,
            2 => self.second,
            _ => None,
        }
    }

    // This file is open as `f`, or none.
    fn set(&mut self, f: &i16, name: Option<Ident>)
        ensures { self.new ≡ with_open self.old f.now name }
    {
        match f {
            1 => self.first = name,
            2 => self.second = name,
            _ => {}
        }
    }
}
