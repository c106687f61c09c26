//! The workers of all nodes at one door, each in a thread of its own.
ghost use Rattle.answer_board.specs.Places.{places_of};
ghost use Rattle.partition_map.specs.Maps.{Exists};
ghost use Rattle.std.specs.Prelude.{◌≡◌, ◌≤◌, All, IfOk, [], length};

use crate::closing::Closing;
use crate::doors::{Door, DoorParts};
use crate::faults::DoorFault;
use crate::naming::Naming;
use crate::workers::work;
use answer_board::boards::Board;
use answer_board::{BoardReader, board};
use std::alloc::{AllocError, Global};
use std::marker::{Brand, PhantomData, Send, Sync};
use std::sync::Wait;
use std::thread;
use std::thread::Threads;
use str_base::NodeId;
use str_model::Answer;
use str_outer::{Clock, Gate};
use str_scene::Scene;

/// What the workers of a scene's nodes came to: what each of them found, by node, and what the door told when it was closed.
#[derive(Drop)]
pub(crate) struct Visited {
    pub found: Vec<Vec<Answer>>,
    pub closing: Closing,
}

/// What the worker of a node is given. Its type carries the name of the reader's board.
#[derive(Drop)]
struct Job<J: Naming, C, G> {
    node: NodeId,
    reader: BoardReader,
    clock: C,
    gate: G,
    of: PhantomData<J>,
    ghost named: { reader.board ≡ J.board },
}

/// Makes a door of the scene, runs a worker for each of its nodes, each in a thread of its own where one can be made, and closes the door and ends
/// it. The worker of node n uses the n-th clock and the n-th gate. The error is want of memory.
pub(crate) fn visit<C: Clock + Send + Drop, G: Gate + Send + Drop, R: Threads + Wait + Sync>(
    rt: &R,
    alloc: Global,
    scene: &Scene,
    clocks: Vec<C>,
    gates: Vec<G>,
) -> Result<Visited, AllocError>
    requires clocks { length clocks.items ≡ 8 }
    requires gates { length gates.items ≡ 8 }
{
    let board = board(rt, alloc, scene, scene.nodes())?;
    visit_named::<Brand, C, G, R>(rt, alloc, scene, board, clocks, gates)
}

/// The same at a door over the board, whose name J carries.
fn visit_named<
    J: Naming + Send + Sync,
    C: Clock + Send + Drop,
    G: Gate + Send + Drop,
    R: Threads + Wait + Sync,
>(
    rt: &R,
    alloc: Global,
    scene: &Scene,
    board: Board,
    clocks: Vec<C>,
    gates: Vec<G>,
) -> Result<Visited, AllocError>
    requires board { board.writer.board ≡ J.board }
    requires places { board.writer.places ≡ places_of scene.now }
    requires list { board.writer.list ≡ [] }
    requires held { board.writer.held ≡ [] }
    requires readers { All (λ r. r.board ≡ J.board) board.readers.items }
    requires count { length board.readers.items ≡ scene.now.nodes }
    requires few { length board.readers.items ≤ 8 }
    requires clocks { length clocks.items ≡ 8 }
    requires gates { length gates.items ≡ 8 }
{
    let DoorParts { mut door, readers } = door_of::<J, R>(rt, alloc, scene, board)?;
    let visit = visit_door(rt, alloc, scene, &mut door, readers, clocks, gates);
    door.end(rt);
    visit
}

/// A door over the board, with a copy of the scene. Where memory is wanting the board was ended.
fn door_of<J: Naming, R: Wait>(
    rt: &R,
    alloc: Global,
    scene: &Scene,
    board: Board,
) -> Result<DoorParts<J>, AllocError>
    requires board { board.writer.board ≡ J.board }
    requires places { board.writer.places ≡ places_of scene.now }
    requires list { board.writer.list ≡ [] }
    requires held { board.writer.held ≡ [] }
    ensures readers { IfOk result (λ parts. parts.readers ≡ board.readers) }
{
    match scene.copy(alloc) {
        Ok(copy) => match Door::new(rt, alloc, copy, board) {
            Ok(parts) => Ok(parts),
            Err(DoorFault::Memory { .. }) => Err(AllocError),
        },
        Err(refused) => {
            let Board { writer, readers: _ } = board;
            writer.end(rt);
            Err(refused)
        }
    }
}

/// Runs the workers at the door and closes it.
fn visit_door<
    J: Naming + Send + Sync,
    C: Clock + Send + Drop,
    G: Gate + Send + Drop,
    R: Threads + Wait + Sync,
>(
    rt: &R,
    alloc: Global,
    scene: &Scene,
    door: &mut Door<J>,
    readers: Vec<BoardReader>,
    clocks: Vec<C>,
    gates: Vec<G>,
) -> Result<Visited, AllocError>
    requires readers { All (λ r. r.board ≡ J.board) readers.items }
    requires count { length readers.items ≡ scene.now.nodes }
    requires few { length readers.items ≤ 8 }
    requires clocks { length clocks.items ≡ 8 }
    requires gates { length gates.items ≡ 8 }
{
    let jobs = jobs_of::<J, C, G>(alloc, readers, clocks, gates)?;
    let found = found_by_all(alloc, run_jobs(rt, alloc, door, scene, jobs)?)?;
    match door.close(rt, alloc) {
        Ok(closing) => Ok(Visited { found, closing }),
        Err(DoorFault::Memory { .. }) => Err(AllocError),
    }
}

/// The jobs of nodes upwards, with these readers, and with the first of the clocks and of the gates.
fn jobs_of<J: Naming, C: Drop, G: Drop>(
    alloc: Global,
    mut readers: Vec<BoardReader>,
    mut clocks: Vec<C>,
    mut gates: Vec<G>,
) -> Result<Vec<Job<J, C, G>>, AllocError>
    requires readers { All (λ r. r.board ≡ J.board) readers.items }
    requires few { length readers.items ≤ 8 }
    requires clocks { length clocks.items ≡ 8 }
    requires gates { length gates.items ≡ 8 }
    ensures nodes { IfOk result (λ jobs. All (λ j. Exists j.node.0 (length readers.items)) jobs.items) }
{
    let mut jobs = Vec::new(alloc);
    for place in 0..readers.len() as u8 {
        jobs.push(Job {
            node: NodeId(place + 1),
            reader: readers.remove(0),
            clock: clocks.remove(0),
            gate: gates.remove(0),
            of: PhantomData,
        })?;
    }
    Ok(jobs)
}

/// Does the jobs side by side, and gives what each came to, in their order.
fn run_jobs<
    J: Naming + Send + Sync,
    C: Clock + Send + Drop,
    G: Gate + Send + Drop,
    R: Threads + Wait + Sync,
>(
    rt: &R,
    alloc: Global,
    door: &Door<J>,
    scene: &Scene,
    jobs: Vec<Job<J, C, G>>,
) -> Result<Vec<Result<Vec<Answer>, DoorFault>>, AllocError>
    requires { All (λ j. Exists j.node.0 scene.now.nodes) jobs.items }
{
    thread::map_vec(rt, jobs, &|job| do_job(rt, alloc, door, scene, job))
}

/// Does a job.
fn do_job<J: Naming, C: Clock + Drop, G: Gate + Drop, R: Wait>(
    rt: &R,
    alloc: Global,
    door: &Door<J>,
    scene: &Scene,
    job: Job<J, C, G>,
) -> Result<Vec<Answer>, DoorFault>
    requires { Exists job.node.0 scene.now.nodes }
{
    let Job {
        node,
        mut reader,
        mut clock,
        mut gate,
        of: _,
    } = job;
    work(
        rt,
        alloc,
        door,
        &mut reader,
        scene,
        node,
        &mut clock,
        &mut gate,
    )
}

/// What the workers found. The error is want of memory, here or at one of them.
fn found_by_all(
    alloc: Global,
    worked: Vec<Result<Vec<Answer>, DoorFault>>,
) -> Result<Vec<Vec<Answer>>, AllocError> {
    let mut all = Vec::new(alloc);
    for one in worked {
        match one {
            Ok(found) => all.push(found)?,
            Err(DoorFault::Memory { .. }) => return Err(AllocError),
        }
    }
    Ok(all)
}
