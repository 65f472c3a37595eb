//! The bus of a scenario: devices that follow its script.
ghost use Rattle.std.specs.Prelude.{◌≡◌, ◌-◌, ◌*◌, ◌%◌, ◌^◌, ◌≤◌, if◌then◌else◌, map, length, slice_get, All, IfOk, OnOk, IsSome, ◌∷◌, []};
ghost use Rattle.xe_base.specs.Access.{IsWellFormed};
ghost use Rattle.xe_ctx.specs.Bus.{HasRoom, Replies};
ghost use Rattle.xe_ctx.specs.Tape.{Key, same_key, first_reply, fed, begun, empty_tape};
ghost use Rattle.xe_scene.specs.Formed.{IsItemFor};
ghost use Rattle.xe_scene.specs.Queued.{widened, filled, without_first, roomy_queue};
ghost use Rattle.xe_scene.specs.Queues.{script_key, key_of_name};
ghost use Rattle.xe_scene.specs.Script.{taped, taped_in, found_at, queue_at, tape_of, sight_of, spare_of, log_room, unready_of, faults_of};
ghost use Rattle.xe_scene.specs.Replies as spec;
ghost use Rattle.xe_scene.specs.Replies.{Fits, unready_after, faults_after};
ghost use Rattle.xe_scene.specs.Rooms.{items_for, fed_by};

use crate::command::{Command, Commands, Item, Scene};
use crate::queue::{Queue, QueueName};
use arrayvec::ArrayVec;
use std::alloc::{AllocError, Global};
use std::collections::BTreeMap;
use xe_base::{Access, Answer, Made, NoMemory, Space};
use xe_ctx::{Bus, Reply};

type Queues = BTreeMap<QueueName, Queue>;

/// Devices that reply by the items of a scene, queue by queue; a log of what was answered; and how
/// often a device wasn't ready, and how often one failed.
#[derive(Drop)]
pub struct ScriptBus {
    queues: Queues,
    log: ArrayVec<Made, 256>,
    unready: u64,
    faults: u64,
}

/// A value in the width of an access.
fn truncated(a: &Access, value: u64) -> u64
    requires { IsWellFormed a.now }
    ensures { result ≡ value % 2 ^ (8 * a.now.size) }
{
    match a.size {
        1 => value % 0x100,
        2 => value % 0x1_0000,
        4 => value % 0x1_0000_0000,
        // The last size is 8.
        _ => value,
    }
}

/// The greatest value of an access.
fn all_ones(a: &Access) -> u64
    requires { IsWellFormed a.now }
    ensures { result ≡ 2 ^ (8 * a.now.size) - 1 }
{
    match a.size {
        1 => 0xff,
        2 => 0xffff,
        4 => 0xffff_ffff,
        // The last size is 8.
        _ => u64::MAX,
    }
}

/// What an item replies. Only model-specific registers are fed `No`; elsewhere it would read as 0.
fn item_reply(a: &Access, item: Item) -> Reply
    requires { IsWellFormed a.now }
    ensures value { result ≡ first_reply a.now (taped_in a.now.space item ∷ []) }
    ensures fits { Fits a.now result }
{
    match item {
        Item::Wait => Reply::NotYet,
        Item::Value(value) => Reply::Ready(Answer::Val(truncated(a, value))),
        Item::No => match a.space {
            Space::Msr => Reply::Ready(Answer::No),
            Space::Mem | Space::Port | Space::Cpuid => Reply::Ready(Answer::Val(truncated(a, 0))),
        },
        Item::Fail => Reply::Failed,
    }
}

/// What the first item of a queue replies. An empty queue is ready: it reads as all ones, and takes
/// what is written.
fn reply_to(a: &Access, item: Option<Item>) -> Reply
    requires { IsWellFormed a.now }
    ensures value { result ≡ spec.reply_to a.now item }
    ensures fits { Fits a.now result }
{
    match item {
        Some(item) => item_reply(a, item),
        None if a.write => Reply::Ready(Answer::Val(0)),
        None => Reply::Ready(Answer::Val(all_ones(a))),
    }
}

/// Adds an empty queue, where there is none of this name.
fn add_queue(queues: &mut Queues, alloc: Global, name: QueueName) -> Result<(), AllocError>
    ensures same { OnOk result ((k : Key) → queue_at queues.new k ≡ queue_at queues.old k) }
    ensures found { OnOk result (IsSome (found_at queues.new (key_of_name name))) }
{
    if !queues.contains_key(&name) {
        queues.insert(name, Queue::new(alloc))?;
    }
    Ok(())
}

/// Makes room for so many more items of a queue.
fn widen_queue(queues: &mut Queues, name: QueueName, more: usize) -> Result<(), AllocError>
    requires { IsSome (found_at queues.old (key_of_name name)) }
    ensures { OnOk result ((k : Key) → queue_at queues.new k ≡ (if same_key k (key_of_name name) then widened (queue_at queues.old k) more else queue_at queues.old k)) }
{
    match queues.get_mut(&name) {
        Some(queue) => {
            queue.widen(more)?;
            Ok(())
        }
        None => Ok(()),
    }
}

/// Appends items to a queue that has room for them.
fn feed_queue(queues: &mut Queues, name: QueueName, items: &[Item])
    requires { length items.now ≤ (queue_at queues.old (key_of_name name)).left }
    ensures { (k : Key) → queue_at queues.new k ≡ (if same_key k (key_of_name name) then filled (queue_at queues.old k) items.now else queue_at queues.old k) }
{
    if let Some(queue) = queues.get_mut(&name) {
        queue.feed(items);
    }
}

/// Takes the first item of a queue, if it has one.
fn take_item(queues: &mut Queues, name: QueueName) -> Option<Item>
    ensures first { result ≡ slice_get (queue_at queues.old (key_of_name name)).waiting 0 }
    ensures rest { (k : Key) → queue_at queues.new k ≡ (if same_key k (key_of_name name) then without_first (queue_at queues.old k) else queue_at queues.old k) }
{
    match queues.get_mut(&name) {
        Some(queue) => queue.take(),
        None => None,
    }
}

/// Makes room for what a command feeds.
fn make_room(queues: &mut Queues, alloc: Global, command: &Command) -> Result<(), AllocError>
    ensures { OnOk result ((k : Key) → queue_at queues.new k ≡ widened (queue_at queues.old k) (fed_by k command.now)) }
{
    match command {
        Command::Dev(space, dir, address, items) => {
            let name = QueueName::new(*space, dir.is_write(), *address);
            add_queue(queues, alloc, name)?;
            widen_queue(queues, name, items.len())
        }
        Command::Reg(..)
        | Command::Seg(..)
        | Command::Table(..)
        | Command::Poke(..)
        | Command::Icpt(_)
        | Command::Unicpt(_)
        | Command::Ioport(..)
        | Command::Icptmsr(..)
        | Command::Batch(_)
        | Command::Run(_)
        | Command::Call
        | Command::Show
        | Command::Dump(..) => Ok(()),
    }
}

/// Empty queues with room for all that commands feed.
fn queues_for(alloc: Global, commands: &Commands) -> Result<Queues, AllocError>
    ensures { IfOk result (λ m. (k : Key) → queue_at m k ≡ roomy_queue (items_for commands.now k)) }
{
    let mut queues = BTreeMap::new(alloc);
    for i in 0..commands.len() {
        make_room(&mut queues, alloc, commands.get(i))?;
    }
    Ok(queues)
}

impl ScriptBus {
    /// Empty queues with room for all items of a scene, an empty log, and both counts 0; or NoMemory
    /// where memory was refused.
    pub fn for_scene(alloc: Global, scene: &Scene) -> Result<ScriptBus, NoMemory>
        ensures tape { IfOk result (λ b. tape_of b ≡ empty_tape) }
        ensures room { IfOk result (λ b. log_room b ≡ 256) }
        ensures spare { IfOk result (λ b. (k : Key) → spare_of b k ≡ items_for scene.now.commands k) }
        ensures unready { IfOk result (λ b. unready_of b ≡ 0) }
        ensures faults { IfOk result (λ b. faults_of b ≡ 0) }
    {
        match queues_for(alloc, &scene.commands) {
            Ok(queues) => Ok(ScriptBus {
                queues,
                log: ArrayVec::new(),
                unready: 0,
                faults: 0,
            }),
            Err(AllocError) => Err(NoMemory),
        }
    }

    /// Appends items to the queue of a space, a direction and an address, into the room that the
    /// scene gave it. That room is for all items of the scene: it isn't given back as they are taken.
    pub fn feed(&mut self, space: Space, write: bool, address: u64, items: &[Item])
        requires room { length items.now ≤ spare_of self.old (script_key space write address) }
        requires formed { All (IsItemFor space) items.now }
        ensures tape { tape_of self.new ≡ fed (tape_of self.old) (script_key space write address) (map taped items.now) }
        ensures room { log_room self.new ≡ log_room self.old }
        ensures spare { (k : Key) → spare_of self.new k ≡ (if same_key k (script_key space write address) then spare_of self.old k - length items.now else spare_of self.old k) }
        ensures unready { unready_of self.new ≡ unready_of self.old }
        ensures faults { faults_of self.new ≡ faults_of self.old }
    {
        let name = QueueName::new(space, write, address);
        feed_queue(&mut self.queues, name, items);
    }

    /// Empties the log.
    pub fn begin(&mut self)
        ensures tape { tape_of self.new ≡ begun (tape_of self.old) }
        ensures room { log_room self.new ≡ 256 }
        ensures spare { (k : Key) → spare_of self.new k ≡ spare_of self.old k }
        ensures unready { unready_of self.new ≡ unready_of self.old }
        ensures faults { faults_of self.new ≡ faults_of self.old }
    {
        self.log.clear();
    }

    /// The accesses that were answered since the log was emptied, with their answers.
    pub fn log(&self) -> &[Made]
        ensures { result.now ≡ (tape_of self.now).log }
    {
        &self.log
    }
}

impl Bus for ScriptBus {
    ghost sight = { sight_of };

    /// Takes the first item of the access's queue. An answer is logged; a device that isn't ready, or
    /// fails, is counted, up to the count's last value.
    fn access(&mut self, a: Access) -> Reply
        requires well_formed { IsWellFormed a }
        requires room { HasRoom (sight_of self.old) 1 }
        ensures replies { Replies (sight_of self.old) a result (sight_of self.new) }
        ensures unready { unready_of self.new ≡ unready_after result (unready_of self.old) }
        ensures faults { faults_of self.new ≡ faults_after result (faults_of self.old) }
    {
        let name = QueueName::new(a.space, a.write, a.address);
        let reply = reply_to(&a, take_item(&mut self.queues, name));
        match reply {
            Reply::Ready(answer) => self.log.push(Made { access: a, answer }),
            Reply::NotYet => self.unready = self.unready.saturating_add(1),
            Reply::Failed => self.faults = self.faults.saturating_add(1),
        }
        reply
    }
}
