//! What the call of a program brings whose nodes have clocks and gates.
ghost use Rattle.std.specs.Prelude.{◌≡◌, IfOk, length};

use std::alloc::{AllocError, Global};
use std::env::Env;
use std::time::Clock as Time;
use str_outer::{OpenGate, RealClock};
use top_status::{Failure, words_of};

/// The words of a call, and a clock of the system and an open gate for each node that a scene may have.
#[derive(Drop)]
pub struct Call<R> {
    pub words: Vec<String>,
    pub clocks: Vec<RealClock<R>>,
    pub gates: Vec<OpenGate>,
}

/// What this call brings.
///
/// # Errors
///
/// `Usage` where a word is no UTF-8, and `Memory` where memory was wanting.
pub fn call_of<R: Env + AllocGlobal + Time + Clone + Drop>(rt: &R) -> Result<Call<R>, Failure>
    ensures clocks { IfOk result (λ call. length call.clocks.items ≡ 8) }
    ensures gates { IfOk result (λ call. length call.gates.items ≡ 8) }
{
    let words = words_of(rt)?;
    let clocks = real_clocks(rt.alloc(), rt)?;
    let gates = open_gates(rt.alloc())?;
    Ok(Call {
        words,
        clocks,
        gates,
    })
}

/// A clock of the system for each node that a scene may have.
fn real_clocks<R: Time + Clone>(alloc: Global, rt: &R) -> Result<Vec<RealClock<R>>, AllocError>
    ensures { IfOk result (λ clocks. length clocks.items ≡ 8) }
{
    let mut clocks = Vec::new(alloc);
    for _node in 0..8u8 {
        clocks.push(RealClock::new(rt.clone()?))?;
    }
    Ok(clocks)
}

/// An open gate for each node that a scene may have.
pub fn open_gates(alloc: Global) -> Result<Vec<OpenGate>, AllocError>
    ensures { IfOk result (λ gates. length gates.items ≡ 8) }
{
    let mut gates = Vec::new(alloc);
    for _node in 0..8u8 {
        gates.push(OpenGate)?;
    }
    Ok(gates)
}
