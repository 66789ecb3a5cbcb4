//! The last two waves.
use coordinator::quiet_waves::{Verdict, Waves};
use gl_base::{Counted, MachineNo};
use std::alloc::Global;
use std::io;

/// What machines 0 and 1 answer to a wave: how many messages each sent and received.
static ROWS: [(u64, u64, u64, u64); 4] = [(3, 2, 3, 3), (3, 2, 3, 3), (5, 4, 4, 5), (5, 4, 4, 5)];

/// Prints what each wave shows. While a message is on its way two waves tell the same and show
/// nothing; once it has come, the second wave that tells the same shows the end.
pub fn print_waves(rt: &impl Print, alloc: Global) -> io::Result<()> {
    match Waves::new(alloc, 2) {
        Ok(mut waves) => print_rows(rt, &mut waves),
        Err(fault) => println!(rt; "waves: {fault}"),
    }
}

fn print_rows(rt: &impl Print, waves: &mut Waves) -> io::Result<()> {
    for (sent, received, other_sent, other_received) in &ROWS {
        print_answer(rt, waves, 0, *sent, *received)?;
        print_answer(rt, waves, 1, *other_sent, *other_received)?;
        println!(rt;
            "updates of the wave: {}, awaits machine 2 {}",
            waves.updates(),
            waves.awaits(MachineNo(2))
        )?;
    }
    Ok(())
}

/// The machine answers that it is idle, if its answer is awaited.
fn print_answer(
    rt: &impl Print,
    waves: &mut Waves,
    machine: u16,
    sent: u64,
    received: u64,
) -> io::Result<()> {
    let awaited = waves.awaits(MachineNo(machine));
    if awaited {
        let counted = Counted {
            sent,
            received,
            updates: 1,
            idle: true,
        };
        waves.count(MachineNo(machine), counted);
    }
    let still = waves.awaits(MachineNo(machine));
    let verdict = name_of(waves.verdict());
    print!(rt; "machine {machine} answers {sent} sent, {received} received: awaited {awaited}, ")?;
    println!(rt;
        "awaited again {still}, whole {}, {verdict}",
        waves.is_whole()
    )
}

fn name_of(verdict: Verdict) -> &'static str {
    match verdict {
        Verdict::Quiet => "quiet",
        Verdict::NotYet => "not yet",
    }
}
