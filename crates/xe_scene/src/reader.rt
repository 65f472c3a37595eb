//! What the lines so far said, with the counts that their bounds need.
ghost use Rattle.std.specs.Prelude.{◌≡◌, ◌≤◌, [], length, map, IfOk, if◌then◌else◌};
ghost use Rattle.std.specs.List.{list_any, slice_split};
ghost use Rattle.xe_mem.specs.Layout.{IsLayout};
ghost use Rattle.xe_scene.specs.Content as spec;
ghost use Rattle.xe_scene.specs.Formed.{IsFormed, IsFormedEntry};
ghost use Rattle.xe_scene.specs.Queues.{same_queue};
ghost use Rattle.xe_icpt.specs.SvmSet.{has_msr};
ghost use Rattle.xe_scene.specs.Puts.{Puts, with_new};
ghost use Rattle.xe_scene.specs.Faults.{content_of};
ghost use Rattle.xe_scene.specs.declared.reader.LineFault.TheVariants.{NoMemory};

use crate::command::{Command, Commands, Scene};
use crate::queue::QueueName;
use crate::reason::Reason;
use crate::words::{Entry, entry_of};
use arrayvec::ArrayVec;
use std::alloc::{AllocError, AllocFailed, Global};
use std::marker::Model;
use xe_icpt::MsrPair;
use xe_mem::{MAX_BYTES, MAX_REGIONS, Region};

/// Why a line was not read.
#[derive(Clone, Copy, Debug, PartialEq, Eq)]
pub(crate) enum LineFault {
    NoMemory,
    Bad(Reason),
}

impl From<AllocError> for LineFault {
    ghost from_gives = { λ _ e. e ≡ NoMemory };

    fn from(_e: AllocError) -> LineFault {
        LineFault::NoMemory
    }
}

impl<T: Drop> From<AllocFailed<T>> for LineFault {
    ghost from_gives = { λ _ e. e ≡ NoMemory };

    fn from(_e: AllocFailed<T>) -> LineFault {
        LineFault::NoMemory
    }
}

/// The scene so far.
#[derive(Drop)]
pub(crate) struct Reader {
    regions: ArrayVec<Region, 16>,
    commands: Vec<Command>,
    /// The bytes of all regions.
    ram: u64,
    /// Where the last region ends.
    ram_end: u64,
    /// The items of all queues.
    items: usize,
    /// The steps of all runs.
    steps: u64,
    /// The different queues.
    queues: ArrayVec<QueueName, 256>,
    /// The different pairs of a model-specific register and a direction.
    pairs: ArrayVec<MsrPair, 64>,
}

impl Model for Reader {
    ghost use Rattle.xe_scene.specs.Content.{Content};

    ghost Value = { Content };

    ghost use Rattle.xe_scene.specs.ReaderInside.{content, IsCounted};

    ghost view = { content };

    ghost invariant = { IsCounted };
}

fn item_count(command: &Command) -> usize
    ensures count { result ≡ spec.item_count command.now }
    ensures most { result ≤ 16 }
{
    match command {
        Command::Dev(_, _, _, items) => items.len(),
        Command::Reg(..)
        | Command::Seg(..)
        | Command::Table(..)
        | Command::Poke(..)
        | Command::Icpt(_)
        | Command::Unicpt(_)
        | Command::Ioport(..)
        | Command::Icptmsr(..)
        | Command::Batch(_)
        | Command::Run(_)
        | Command::Call
        | Command::Show
        | Command::Dump(..) => 0,
    }
}

fn step_count(command: &Command) -> u64
    ensures { result ≡ spec.step_count command.now }
{
    match command {
        Command::Run(steps) => *steps,
        Command::Reg(..)
        | Command::Seg(..)
        | Command::Table(..)
        | Command::Poke(..)
        | Command::Dev(..)
        | Command::Icpt(_)
        | Command::Unicpt(_)
        | Command::Ioport(..)
        | Command::Icptmsr(..)
        | Command::Batch(_)
        | Command::Call
        | Command::Show
        | Command::Dump(..) => 0,
    }
}

/// The queue that a command names and that isn't one of these.
fn new_queue(queues: &[QueueName], command: &Command) -> Option<QueueName>
    ensures { spec.with_queue_of queues.now command.now ≡ with_new queues.now result }
{
    match command {
        Command::Dev(space, dir, address, _) => {
            another_queue(queues, QueueName::new(*space, dir.is_write(), *address))
        }
        Command::Reg(..)
        | Command::Seg(..)
        | Command::Table(..)
        | Command::Poke(..)
        | Command::Icpt(_)
        | Command::Unicpt(_)
        | Command::Ioport(..)
        | Command::Icptmsr(..)
        | Command::Batch(_)
        | Command::Run(_)
        | Command::Call
        | Command::Show
        | Command::Dump(..) => None,
    }
}

/// The queue, where it isn't one of these.
fn another_queue(queues: &[QueueName], queue: QueueName) -> Option<QueueName>
    ensures { result ≡ (if list_any (same_queue queue) queues.now then None else Some queue) }
{
    if has_queue(queues, &queue) {
        None
    } else {
        Some(queue)
    }
}

/// The pair of a model-specific register and a direction that a command names and that isn't one of these.
fn new_pair(pairs: &[MsrPair], command: &Command) -> Option<MsrPair>
    requires { IsFormed command.now }
    ensures { spec.with_pair_of pairs.now command.now ≡ with_new pairs.now result }
{
    match command {
        Command::Icptmsr(dir, number) => another_pair(
            pairs,
            MsrPair {
                number: *number as u32,
                write: dir.is_write(),
            },
        ),
        Command::Reg(..)
        | Command::Seg(..)
        | Command::Table(..)
        | Command::Poke(..)
        | Command::Dev(..)
        | Command::Icpt(_)
        | Command::Unicpt(_)
        | Command::Ioport(..)
        | Command::Batch(_)
        | Command::Run(_)
        | Command::Call
        | Command::Show
        | Command::Dump(..) => None,
    }
}

/// The pair, where it isn't one of these.
fn another_pair(pairs: &[MsrPair], pair: MsrPair) -> Option<MsrPair>
    ensures { result ≡ (if has_msr pairs.now pair.number pair.write then None else Some pair) }
{
    if has_pair(pairs, pair) {
        None
    } else {
        Some(pair)
    }
}

fn has_pair(pairs: &[MsrPair], pair: MsrPair) -> bool
    ensures { result ≡ has_msr pairs.now pair.number pair.write }
{
    pairs
        .iter()
        .any(|m| m.number == pair.number && m.write == pair.write)
}

/// One more queue is named, if it is new.
fn note_queue(queues: &mut ArrayVec<QueueName, 256>, queue: Option<QueueName>)
    requires { length (with_new queues.old.items queue) ≤ 256 }
    ensures { queues.new.items ≡ with_new queues.old.items queue }
{
    if let Some(queue) = queue {
        queues.push(queue);
    }
}

/// One more pair is named, if it is new.
fn note_pair(pairs: &mut ArrayVec<MsrPair, 64>, pair: Option<MsrPair>)
    requires { length (with_new pairs.old.items pair) ≤ 64 }
    ensures { pairs.new.items ≡ with_new pairs.old.items pair }
{
    if let Some(pair) = pair {
        pairs.push(pair);
    }
}

fn has_queue(queues: &[QueueName], queue: &QueueName) -> bool
    ensures { result ≡ list_any (same_queue queue.now) queues.now }
{
    queues.iter().any(|q| *queue == *q)
}

impl Reader {
    pub(crate) fn new(alloc: Global) -> Reader
        ensures { result ≡ record { regions = []; commands = [] } }
    {
        Reader {
            regions: ArrayVec::new(),
            commands: Vec::new(alloc),
            ram: 0,
            ram_end: 0,
            items: 0,
            steps: 0,
            queues: ArrayVec::new(),
            pairs: ArrayVec::new(),
        }
    }

    #[tactic(auto, using(crate::proofs::RegionLaws::layout_push), unfolding(crate::specs::Content::put, crate::specs::Content::is_too_much, crate::specs::Content::is_bad_region))]
    fn put_region(&mut self, region: Region) -> Result<(), LineFault>
        ensures { Puts result (spec.put self.old (Entry.Ram region)) self.new }
    {
        if !region.fits_after(self.ram_end) {
            return Err(LineFault::Bad(Reason::BadRegion));
        }
        if self.regions.len() >= MAX_REGIONS || self.ram.saturating_add(region.len) > MAX_BYTES {
            return Err(LineFault::Bad(Reason::TooMuchRam));
        }
        self.ram += region.len;
        self.ram_end = region.start + region.len;
        self.regions.push(region);
        Ok(())
    }

    #[tactic(auto, using(crate::proofs::RegionLaws::formed_push), unfolding(crate::specs::Content::put, crate::specs::Content::is_too_many))]
    fn put_command(&mut self, command: Command) -> Result<(), LineFault>
        requires { IsFormed command }
        ensures { Puts result (spec.put self.old (Entry.Obey command)) self.new }
    {
        let items = self.items + item_count(&command);
        let steps = self.steps.saturating_add(step_count(&command));
        if self.commands.len() >= 4096 || items > 4096 || steps > 1_000_000 {
            return Err(LineFault::Bad(Reason::TooMany));
        }
        let queue = new_queue(&self.queues, &command);
        if queue.is_some() && self.queues.len() >= 256 {
            return Err(LineFault::Bad(Reason::TooMany));
        }
        let pair = new_pair(&self.pairs, &command);
        if pair.is_some() && self.pairs.len() >= 64 {
            return Err(LineFault::Bad(Reason::TooMany));
        }
        self.commands.push(command)?;
        note_queue(&mut self.queues, queue);
        note_pair(&mut self.pairs, pair);
        self.items = items;
        self.steps = steps;
        Ok(())
    }

    fn put(&mut self, entry: Entry) -> Result<(), LineFault>
        requires { IsFormedEntry entry }
        ensures { Puts result (spec.put self.old entry) self.new }
    {
        match entry {
            Entry::Ram(region) => self.put_region(region),
            Entry::Obey(command) => self.put_command(command),
        }
    }

    /// Whether RAM comes too late.
    fn is_late(&self) -> bool
        ensures { result ≡ spec.is_late self.now }
    {
        !self.commands.is_empty()
    }

    #[tactic(auto, using(crate::proofs::WordLaws::any_mapped), unfolding(crate::specs::Content::words_say))]
    fn words(&mut self, words: &[&[u8]]) -> Result<(), LineFault>
        ensures { Puts result (spec.words_say self.old (map (λ w. w.now) words.now)) self.new }
    {
        if has_empty(words) {
            return Err(LineFault::Bad(Reason::Spacing));
        }
        match entry_of(self.is_late(), words) {
            Ok(entry) => self.put(entry),
            Err(reason) => Err(LineFault::Bad(reason)),
        }
    }

    /// Reads a line.
    #[tactic(auto, unfolding(crate::specs::Content::line_says))]
    pub(crate) fn line(&mut self, alloc: Global, line: &[u8]) -> Result<(), LineFault>
        ensures { Puts result (spec.line_says self.old line.now) self.new }
    {
        if has_bad_byte(line) {
            return Err(LineFault::Bad(Reason::BadByte));
        }
        if line.len() > 200 {
            return Err(LineFault::Bad(Reason::LongLine));
        }
        if does_nothing(line) {
            return Ok(());
        }
        let words = words_of(alloc, line)?;
        self.words(&words)
    }

    pub(crate) fn into_scene(self) -> Scene
        ensures content { content_of result ≡ self }
        ensures regions { IsLayout result.regions.items }
    {
        let Reader {
            regions,
            commands,
            ram: _,
            ram_end: _,
            items: _,
            steps: _,
            queues: _,
            pairs: _,
        } = self;
        Scene {
            regions,
            commands: Commands::new(commands),
        }
    }
}

fn has_empty(words: &[&[u8]]) -> bool
    ensures { result ≡ list_any (λ w. spec.is_empty_word w.now) words.now }
{
    words.iter().any(|w| w.is_empty())
}

fn has_bad_byte(line: &[u8]) -> bool
    ensures { result ≡ list_any spec.is_bad_byte line.now }
{
    line.iter().any(|b| *b < 32 || *b > 126)
}

/// Whether a line is empty, or a comment.
fn does_nothing(line: &[u8]) -> bool
    ensures { result ≡ spec.does_nothing line.now }
{
    matches!(line, [] | [b'#', ..])
}

fn words_of(alloc: Global, line: &[u8]) -> Result<Vec<&[u8]>, AllocError>
    ensures { IfOk result (λ v. map (λ w. w.now) v.items ≡ slice_split spec.is_space line.now) }
{
    line.split(|b| *b == b' ').collect(alloc)
}
