ghost use Rattle.std.specs.Prelude.{◌≡◌, ◌<◌, ◌≤◌, ◌*◌, [], All, length, map, vec_len, IfOk};
ghost use Rattle.hx_events.specs.Texts.{resource_of};
ghost use Rattle.hx_hub.specs.Shared.{so_far};
ghost use Rattle.hx_actors.specs.Work.{fulls};
ghost use Rattle.hx_actors.specs.Pieces.{IsNamed};

use crate::founding::founded;
use crate::words::says;
use hx_actors::{Gate, OpenGate, PARTS, run_all, windows_at_work};
use hx_disk::Disk;
use hx_events::{Actor, Bytes, Command, Ended, Entry, Life, ResNo};
use hx_hub::{Founded, Naming};
use hx_registry::Registry;
use std::alloc::{AllocError, Global};
use std::marker::Brand;
use std::process::Abort;
use std::sync::Wait;
use std::sync::atomic::{AtomicU64, Ordering};
use std::test::Fail;
use std::thread;
use std::thread::Threads;

// A command on the resource by its name; all other words are edits.
fn command(alloc: Global, word: &str, res: ResNo) -> Result<Command, AllocError>
    ensures { IfOk result (λ command. resource_of command ≡ res) }
{
    Ok(match word {
        "create" => Command::Create(res),
        "close" => Command::Close(res),
        "save" => Command::Save {
            res,
            force: false,
            over: false,
        },
        _ => Command::Edit {
            res,
            off: 0,
            del: 0,
            text: Bytes::new(b"text".to_vec(alloc)?),
        },
    })
}

fn script(alloc: Global, words: &str, res: ResNo) -> Result<Vec<Command>, AllocError>
    requires { res < 2 }
    ensures { IfOk result (λ script. IsNamed 2 script.items) }
{
    let mut script = Vec::new(alloc);
    for word in words.split_whitespace() {
        script.push(command(alloc, word, res)?)?;
    }
    Ok(script)
}

// Two windows, each with a file of its own, and one without commands between them.
fn scripts(alloc: Global, one: &str, two: &str) -> Result<Vec<Vec<Command>>, AllocError>
    ensures few { IfOk result (λ scripts. vec_len scripts ≡ 3) }
    ensures named { IfOk result (λ scripts. All (IsNamed 2) (map (λ s. s.items) scripts.items)) }
{
    let mut scripts = Vec::with_capacity(alloc, 3)?;
    scripts.push(script(alloc, one, ResNo::new(0))?)?;
    scripts.push(Vec::new(alloc))?;
    scripts.push(script(alloc, two, ResNo::new(1))?)?;
    Ok(scripts)
}

fn run_over<D: Disk + Send, J: Naming + Send + Sync, R: Threads + Wait + Sync, G: Gate + Sync>(
    rt: &R,
    alloc: Global,
    founded: Founded<D>,
    scripts: Vec<Vec<Command>>,
    workers: u32,
    gate: &G,
) -> (Registry<D>, Result<(), AllocError>)
    requires table { founded.table ≡ J.table }
    requires life { founded.registry.course ≡ J.life }
    requires disk { so_far D.time D.past D.failures founded.registry.disk ≡ J.disk }
    requires windows { (founded.windows ≡ J.windows) × (J.windows ≡ fulls (map (λ s. s.items) scripts.items)) }
    requires parts { (founded.parts ≡ J.parts) × (J.parts ≡ 17) }
    requires fresh { (J.life.entries ≡ []) × (length J.life.names ≡ 2) }
    requires scripts { (vec_len scripts ≡ 3) × All (IsNamed 2) (map (λ s. s.items) scripts.items) }
    requires workers { (1 ≤ workers) × (workers ≤ 4) }
{
    let (hub, closer) = founded.named::<J>();
    run_all(rt, alloc, hub, closer, scripts, workers, gate)
}

// Gives the hub a name.
fn named<D: Disk + Send, R: Threads + Wait + Sync, G: Gate + Sync>(
    rt: &R,
    alloc: Global,
    founded: Founded<D>,
    scripts: Vec<Vec<Command>>,
    workers: u32,
    gate: &G,
) -> (Registry<D>, Result<(), AllocError>)
    requires windows { founded.windows ≡ fulls (map (λ s. s.items) scripts.items) }
    requires parts { founded.parts ≡ 17 }
    requires fresh { (founded.registry.course.entries ≡ []) × (length founded.registry.course.names ≡ 2) }
    requires scripts { (vec_len scripts ≡ 3) × All (IsNamed 2) (map (λ s. s.items) scripts.items) }
    requires workers { (1 ≤ workers) × (workers ≤ 4) }
{
    run_over::<D, Brand, _, _>(rt, alloc, founded, scripts, workers, gate)
}

// The life that these windows make with so many writers and savers.
fn lived<R: Threads + Wait + Abort + Sync, G: Gate + Sync>(
    rt: &R,
    alloc: Global,
    one: &str,
    two: &str,
    workers: u32,
    gate: &G,
) -> Result<Life, Fail>
    requires { (1 ≤ workers) × (workers ≤ 4) }
{
    let scripts = scripts(alloc, one, two)?;
    let founded = founded(rt, alloc, windows_at_work(&scripts), PARTS)?;
    let (registry, ended) = named(rt, alloc, founded, scripts, workers, gate);
    let nothing_due = registry.due_vault().is_none();
    let (_, life) = registry.finish(Ended::Cut);
    ended?;
    assert!(rt; nothing_due);
    Ok(life)
}

// The outcomes of the actor's entries, in their order.
fn made(alloc: Global, history: &[Entry], actor: Actor) -> Result<String, AllocError> {
    let mut text = String::new(alloc);
    for entry in history {
        if entry.actor == actor {
            let outcome = format!(in alloc; " {:?}", entry.outcome)?;
            text.push_str(&outcome)?;
        }
    }
    Ok(text)
}

fn has_made(
    rt: &impl Abort,
    alloc: Global,
    life: &Life,
    window: u8,
    wanted: &str,
) -> Result<(), Fail> {
    let text = made(alloc, life.history.as_slice(), Actor::Window(window))?;
    says(rt, &text, wanted);
    Ok(())
}

#[test]
fn a_copy_without_edits_makes_no_work(rt: HostRuntime) -> Result<(), Fail> {
    let alloc = rt.alloc();
    let life = lived(&rt, alloc, "create close", "", 1, &OpenGate)?;
    has_made(&rt, alloc, &life, 0, " Created(1) Closed")?;
    assert_eq!(rt; life.history.as_slice().len(), 2);
    Ok(())
}

#[test]
fn edits_are_backed_up_behind_all_windows(rt: HostRuntime) -> Result<(), Fail> {
    let alloc = rt.alloc();
    let two = "create edit close close";
    let life = lived(&rt, alloc, "create edit edit", two, 4, &OpenGate)?;
    has_made(&rt, alloc, &life, 0, " Created(1) Edited(2) Edited(3)")?;
    has_made(&rt, alloc, &life, 1, "")?;
    has_made(&rt, alloc, &life, 2, " Created(1) Edited(2) Closed NotOpen")
}

const TURNS: u32 = 10_000_000;

// Which of the moments that the gate waits for have come, and the last one that was waited for in vain, from 1.
#[derive(Drop)]
struct Moments {
    third_command: AtomicU64,
    first_writer: AtomicU64,
    second_writer: AtomicU64,
    saver: AtomicU64,
    late: AtomicU64,
}

impl Moments {
    fn new() -> Moments {
        Moments {
            third_command: AtomicU64::new(0),
            first_writer: AtomicU64::new(0),
            second_writer: AtomicU64::new(0),
            saver: AtomicU64::new(0),
            late: AtomicU64::new(0),
        }
    }

    // Waits for the moment, for so many turns at most.
    fn wait_for(&self, moment: &AtomicU64, number: u64) {
        for _ in 0..TURNS {
            if moment.load(Ordering::SeqCst) > 0 {
                return;
            }
            thread::yield_now();
        }
        self.late.store(number, Ordering::SeqCst);
    }
}

// The first window begins once the last one is at its third command. It saves once a writer has done a stage, and goes on once a
// saver has. Each writer goes on behind a stage once the other one has done one too.
impl Gate for Moments {
    fn before(&self, window: u32, command: u64) {
        match (window, command) {
            (2, 2) => self.third_command.store(1, Ordering::SeqCst),
            (0, 0) => self.wait_for(&self.third_command, 1),
            (0, 2) => self.wait_for(&self.first_writer, 2),
            (0, 3) => self.wait_for(&self.saver, 3),
            _ => {}
        }
    }

    fn staged(&self, actor: Actor) {
        match actor {
            Actor::Writer(0) => {
                self.first_writer.store(1, Ordering::SeqCst);
                self.wait_for(&self.second_writer, 4);
            }
            Actor::Writer(_) => {
                self.second_writer.store(1, Ordering::SeqCst);
                self.wait_for(&self.first_writer, 5);
            }
            Actor::Saver(_) => self.saver.store(1, Ordering::SeqCst),
            _ => {}
        }
    }
}

#[test]
fn windows_writers_and_savers_work_beside_each_other(rt: HostRuntime) -> Result<(), Fail> {
    let alloc = rt.alloc();
    let gate = Moments::new();
    let two = "create close create close create close";
    let life = lived(&rt, alloc, "create edit save edit", two, 2, &gate)?;
    assert_eq!(rt; gate.late.load(Ordering::SeqCst), 0);
    has_made(
        &rt,
        alloc,
        &life,
        0,
        " Created(1) Edited(2) Started(2) Edited(3)",
    )?;
    has_made(
        &rt,
        alloc,
        &life,
        2,
        " Created(1) Closed Created(2) Closed Created(3) Closed",
    )
}
