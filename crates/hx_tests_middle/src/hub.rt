ghost use Rattle.std.specs.Prelude.{◌≡◌, ◌<◌, ◌+◌, [], length, IfOk};
ghost use Rattle.hx_events.specs.Texts.{resource_of};
ghost use Rattle.hx_hub.specs.Shared.{so_far};

use crate::founding::founded;
use crate::words::{parted, says};
use hx_disk::Disk;
use hx_events::{Actor, Bytes, Command, Ended, Life, ResNo};
use hx_hub::{Founded, Hub, Kind, Naming, Pass};
use std::alloc::{AllocError, Global};
use std::marker::Brand;
use std::process::Abort;
use std::sync::Wait;
use std::test::Fail;

// Who asks for what, what it is answered, and how many entries the history has then. A writer and a saver ask for a stage.
const SESSION: &str = "\
window create: Acted { place: 1, outcome: Created(1) } of 1
writer: Rest of 1
saver: Rest of 1
window edit: Acted { place: 2, outcome: Edited(2) } of 2
writer: Did(Acted { place: 3, outcome: StageOk(Prepare, 2) }) of 3
writer: Did(Acted { place: 4, outcome: StageOk(Body, 2) }) of 4
writer: Did(Acted { place: 5, outcome: StageOk(Open, 2) }) of 5
writer: Rest of 5
saver: Rest of 5
window save: Acted { place: 6, outcome: Started(2) } of 6
saver: Did(Acted { place: 7, outcome: Checked(None) }) of 7
saver: Did(Acted { place: 8, outcome: Saved(2, Some(Stat { mtime: 5000, size: 4 })) }) of 8
saver: Rest of 8
writer: Did(Acted { place: 9, outcome: StageOk(Fade, 0) }) of 9
writer: Did(Acted { place: 10, outcome: StageOk(Drop, 0) }) of 10
writer: Rest of 10";

fn command(alloc: Global, word: &str) -> Result<Command, AllocError>
    ensures { IfOk result (λ command. resource_of command ≡ 1) }
{
    let res = ResNo::new(1);
    Ok(match word {
        "create" => Command::Create(res),
        "save" => Command::Save {
            res,
            force: false,
            over: false,
        },
        _ => Command::Edit {
            res,
            off: 0,
            del: 0,
            text: Bytes::new(b"text".to_vec(alloc)?),
        },
    })
}

// What the command is answered.
fn acts<D: Disk, J: Naming, R: Wait>(
    rt: &R,
    alloc: Global,
    hub: &Hub<D, J>,
    pass: &mut Pass<J>,
    word: &str,
) -> Result<String, AllocError>
    requires { 1 < length J.life.names }
    ensures { (pass.new.parts ≡ pass.old.parts) × (pass.new.leaves ≡ pass.old.leaves) }
{
    let command = command(alloc, word)?;
    let acted = hub.act(rt, pass, command)?;
    format!(in alloc; "{acted:?}")
}

// What the question for a stage is answered.
fn works<D: Disk, J: Naming, R: Wait>(
    rt: &R,
    alloc: Global,
    hub: &Hub<D, J>,
    pass: &mut Pass<J>,
    kind: Kind,
) -> Result<String, AllocError>
    ensures { (pass.new.parts ≡ pass.old.parts) × (pass.new.leaves ≡ pass.old.leaves) }
{
    let staged = hub.stage(rt, pass, kind)?;
    format!(in alloc; "{staged:?}")
}

// It takes no handle by which it could wait for the lock.
fn looks<D: Disk, J: Naming>(hub: &Hub<D, J>, pass: &mut Pass<J>) -> u64
    ensures { pass.new.parts ≡ pass.old.parts }
{
    hub.front(pass)
}

// Makes what the lines ask for. Then the window leaves.
fn session<D: Disk, J: Naming, R: Wait + Abort>(
    rt: &R,
    alloc: Global,
    hub: &Hub<D, J>,
    closer: &mut Pass<J>,
    passes: (Pass<J>, Pass<J>, Pass<J>),
) -> (Pass<J>, Pass<J>, Pass<J>)
    requires names { 1 < length J.life.names }
    requires window { (passes.0.parts ≡ 1) × (passes.0.leaves ≡ []) }
    requires workers { (passes.1.parts ≡ 1) × (passes.2.parts ≡ 1) }
    ensures closer { closer.new.parts ≡ closer.old.parts }
    ensures passes { (result.0.parts ≡ 1) × (result.1.parts ≡ 1) × (result.2.parts ≡ 1) }
{
    let (mut window, mut writer, mut saver) = passes;
    for line in SESSION.lines() {
        let (asked, wanted) = parted(line, ": ");
        let answer = match parted(asked, " ") {
            ("writer", _) => works(rt, alloc, hub, &mut writer, Kind::Vault),
            ("saver", _) => works(rt, alloc, hub, &mut saver, Kind::Save),
            (_, word) => acts(rt, alloc, hub, &mut window, word),
        };
        let (answer, front) = (answer.expect(rt, "there is memory"), looks(hub, closer));
        let text = format!(in alloc; "{answer} of {front}").expect(rt, "there is memory");
        says(rt, &text, wanted);
    }
    assert!(rt; hub.leave(rt, &mut window).is_ok());
    (window, writer, saver)
}

// Once the window has left and nothing is due, the work is over.
fn is_over<D: Disk, J: Naming, R: Wait + Abort>(
    rt: &R,
    alloc: Global,
    hub: &Hub<D, J>,
    pass: &mut Pass<J>,
    kind: Kind,
)
    ensures { pass.new.parts ≡ pass.old.parts }
{
    let staged = works(rt, alloc, hub, pass, kind).expect(rt, "there is memory");
    says(rt, &staged, "Over");
}

fn split<D: Disk, J: Naming>(hub: &Hub<D, J>, pass: &mut Pass<J>, actor: Actor) -> Pass<J>
    requires { 1 < pass.old.parts }
    ensures new { (result.parts ≡ 1) × (result.leaves ≡ []) }
    ensures old { pass.new.parts + 1 ≡ pass.old.parts }
{
    let Ok(cut) = hub.split(pass, actor, 1) else {
        unreachable!()
    };
    cut
}

fn closed<D: Disk, J: Naming, R: Abort>(
    rt: &R,
    alloc: Global,
    hub: Hub<D, J>,
    closer: Pass<J>,
    passes: (Pass<J>, Pass<J>, Pass<J>),
) -> (D, Life)
    requires { closer.parts + passes.0.parts + passes.1.parts + passes.2.parts ≡ J.parts }
{
    let (window, writer, saver) = passes;
    let mut others = Vec::new(alloc);
    others.push(window).expect(rt, "there is memory");
    others.push(writer).expect(rt, "there is memory");
    others.push(saver).expect(rt, "there is memory");
    hub.close(closer, others).finish(Ended::Script)
}

fn named<D: Disk, J: Naming, R: Wait + Abort>(
    rt: &R,
    alloc: Global,
    founded: Founded<D>,
) -> (D, Life)
    requires table { founded.table ≡ J.table }
    requires life { founded.registry.course ≡ J.life }
    requires disk { so_far D.time D.past D.failures founded.registry.disk ≡ J.disk }
    requires windows { founded.windows ≡ J.windows }
    requires parts { (founded.parts ≡ J.parts) × (J.parts ≡ 4) }
    requires names { length J.life.names ≡ 2 }
{
    let (hub, mut closer) = founded.named::<J>();
    let window = split(&hub, &mut closer, Actor::Window(0));
    let writer = split(&hub, &mut closer, Actor::Writer(0));
    let saver = split(&hub, &mut closer, Actor::Saver(0));
    let (window, mut writer, mut saver) = session(
        rt,
        alloc,
        &hub,
        &mut closer,
        (window, writer, saver),
    );
    is_over(rt, alloc, &hub, &mut writer, Kind::Vault);
    is_over(rt, alloc, &hub, &mut saver, Kind::Save);
    closed(rt, alloc, hub, closer, (window, writer, saver))
}

// Gives the hub a name.
fn played<D: Disk, R: Wait + Abort>(rt: &R, alloc: Global, founded: Founded<D>) -> (D, Life)
    requires parts { founded.parts ≡ 4 }
    requires names { length founded.registry.course.names ≡ 2 }
{
    named::<D, Brand, _>(rt, alloc, founded)
}

#[test]
fn each_pass_does_its_own_work_in_one_history(rt: HostRuntime) -> Result<(), Fail> {
    let alloc = rt.alloc();
    let founded = founded(&rt, alloc, 1, 4)?;
    let (_, life) = played(&rt, alloc, founded);
    assert_eq!(rt; life.history.as_slice().len(), 10);
    Ok(())
}
