//! The calls that a program in C makes.
ghost use Rattle.std.specs.Prelude.{◌≡◌, ◌≤◌, length, None, IfOk};
ghost use Rattle.gachuswi.specs.Calls.{IsKeptRun, IsRunCall, filled, out_of, err_of, status_of};

use crate::answer_numbers::{MISUSED, MOST_LEARNT, NO_MEMORY};
use crate::asking::{Options, asked, asks_for_both};
use crate::handles::Handle;
use solv_embed::run_lent;
use solv_lent::LentFile;
use std::alloc::{AllocError, Global};

/// The number of this interface. It grows by one with each change that a program in C has to know of.
const ABI: u32 = 1;

/// The number of this interface.
#[unsafe(no_mangle)]
pub extern "C" fn gachuswi_abi() -> u32
    ensures { result ≡ 1 }
{
    ABI
}

/// Runs the script of this name, and keeps what that comes to.
fn kept_run(
    alloc: Global,
    files: &[LentFile],
    script: &str,
    options: &Options,
) -> Result<(Handle, i32), AllocError>
    requires { options.now.budget ≤ 1000000 }
    ensures { IfOk result (λ kept. IsKeptRun files.now script.now options.now kept.0.value kept.1) }
{
    let command = asked(alloc, script, options)?;
    let outcome = run_lent(alloc, files, &command)?;
    let status = outcome.status.number() as i32;
    let handle = Handle::keep(alloc, outcome)?;
    Ok((handle, status))
}

/// Solves the script of this name, which is one of the files that the caller lends, and keeps what that comes to in place of
/// what was kept. The answer is its status.
///
/// No file is asked for but those that are lent. They are read during the call, and not kept. Nothing is written to a stream.
#[unsafe(no_mangle)]
pub extern "C" fn gachuswi_run(
    alloc: Global,
    answer: &mut Handle,
    files: &[LentFile],
    script: &[u8],
    options: &Options,
) -> i32
    ensures { IsRunCall files.now script.now options.now answer.old.value answer.new.value result }
{
    let Ok(script) = std::str::from_utf8(script) else {
        return MISUSED;
    };
    if options.budget > MOST_LEARNT {
        return MISUSED;
    }
    if asks_for_both(options) {
        return MISUSED;
    }
    match kept_run(alloc, files, script, options) {
        Ok((handle, status)) => {
            *answer = handle;
            status
        }
        Err(_) => NO_MEMORY,
    }
}

/// The status of what is kept, or that the call was made wrongly where nothing is.
#[unsafe(no_mangle)]
pub extern "C" fn gachuswi_status(alloc: Global, answer: &mut Handle) -> i32
    ensures status { result ≡ status_of answer.old.value }
    ensures same { answer.new.value ≡ answer.old.value }
{
    let Some(kept) = answer.take(alloc) else {
        return MISUSED;
    };
    let status = kept.as_ref().status.number() as i32;
    answer.put(kept);
    status
}

/// Copies the first bytes of a text, as many as there is room for.
fn fill(into: &mut [u8], text: &[u8])
    ensures { into.new ≡ filled text.now into.old }
{
    let count = text.len().min(into.len());
    into[..count].copy_from_slice(&text[..count]);
}

/// Copies the first bytes of the text that is printed, as many as there is room for, and answers how many it has. It has none
/// where nothing is kept.
#[unsafe(no_mangle)]
pub extern "C" fn gachuswi_out(alloc: Global, answer: &mut Handle, into: &mut [u8]) -> usize
    ensures copied { into.new ≡ filled (out_of answer.old.value) into.old }
    ensures size { result ≡ length (out_of answer.old.value) }
    ensures same { answer.new.value ≡ answer.old.value }
{
    let Some(kept) = answer.take(alloc) else {
        return 0;
    };
    let text = kept.as_ref().out.held();
    fill(into, text);
    let size = text.len();
    answer.put(kept);
    size
}

/// Copies the first bytes of the line on what is wrong, likewise.
#[unsafe(no_mangle)]
pub extern "C" fn gachuswi_err(alloc: Global, answer: &mut Handle, into: &mut [u8]) -> usize
    ensures copied { into.new ≡ filled (err_of answer.old.value) into.old }
    ensures size { result ≡ length (err_of answer.old.value) }
    ensures same { answer.new.value ≡ answer.old.value }
{
    let Some(kept) = answer.take(alloc) else {
        return 0;
    };
    let text = kept.as_ref().err.held();
    fill(into, text);
    let size = text.len();
    answer.put(kept);
    size
}

/// Lets go what is kept, and its memory. It may be called again.
#[unsafe(no_mangle)]
pub extern "C" fn gachuswi_close(alloc: Global, answer: &mut Handle)
    ensures { answer.new.value ≡ None }
{
    *answer = Handle::none(alloc);
}
