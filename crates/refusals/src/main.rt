//! Calls each call that takes memory, and looks at what stands where one of its growths was refused.
//!
//! With ample memory each line says `held`. `tests/refusals` runs the program again for each growth that it makes, and for
//! each thread that it starts, and refuses that one. The call in which it falls then answers want of memory or of a thread,
//! what stands must be as before (or what the call's contract says), and the same call made again must do its work: so each of
//! those runs prints the same lines. A new call is one line of the list; those that start threads stand last, since the
//! growths of their threads may come in another order.
#![tactic(auto)]

mod again;
mod benches;
mod cells;
mod counts;
mod examples;
mod lines;
mod memory_orders;
mod passes;
mod projects;
mod reports;
mod rows;
mod runs;
mod workers;

use std::io::Print;
use std::process::ExitCode;
use std::sync::Wait;
use std::thread::Threads;

fn main(rt: HostRuntime) -> ExitCode {
    let alloc = rt.alloc();
    let mut held = true;
    held &= tell(&rt, "Project::new, built_in, share", projects::made(alloc));
    held &= tell(&rt, "Project::apply", projects::edited(alloc));
    held &= tell(&rt, "read_project", projects::read(alloc));
    held &= tell(&rt, "read_bytes", runs::read(alloc));
    held &= tell(&rt, "write_project", projects::written(alloc));
    held &= tell(
        &rt,
        "Project::of_scale, write_project",
        projects::large(alloc),
    );
    held &= tell(&rt, "fault_place", projects::placed(alloc));
    held &= tell(&rt, "from_scratch", projects::simulated(alloc));
    held &= tell(&rt, "order", projects::ordered(alloc));
    held &= tell(&rt, "one_order", memory_orders::ordered(alloc));
    held &= tell(&rt, "memory_order", memory_orders::linearized(alloc));
    held &= tell(&rt, "Line::share, readers", lines::shared(alloc));
    held &= tell(
        &rt,
        "Table::new, touch, settle, due_cone",
        lines::touched(alloc),
    );
    held &= tell(
        &rt,
        "Table::claim, compute, give, shared",
        lines::given(alloc),
    );
    held &= tell(&rt, "Rp3::share, start, step, next", cells::stepped(alloc));
    held &= tell(&rt, "Rp3::readers", cells::listed(alloc));
    held &= tell(&rt, "Row::start, step, read", rows::stepped(alloc));
    held &= tell(&rt, "encode, decode", rows::told(alloc));
    held &= tell(&rt, "references, latencies_of", reports::reported(alloc));
    held &= tell(&rt, "tree", cells::reported(&rt, alloc));
    held &= tell(&rt, "Bench::new", benches::made(alloc));
    held &= tell(&rt, "Bench::edit", benches::edited(alloc));
    held &= tell(&rt, "Bench::settle", benches::settled(&rt, alloc));
    held &= tell(
        &rt,
        "Bench::claim, compute, give",
        benches::given(&rt, alloc),
    );
    held &= tell(&rt, "Bench::ask", benches::asked(&rt, alloc));
    held &= tell(&rt, "Bench::order", benches::ordered(alloc));
    held &= tell(&rt, "Bench::one_order", memory_orders::of_benches(alloc));
    held &= tell(
        &rt,
        "Bench::ask, a first counter",
        counts::counted(&rt, alloc),
    );
    held &= tell(
        &rt,
        "Bench::ask, a first profile",
        counts::profiled(&rt, alloc),
    );
    held &= tell(
        &rt,
        "Bench::ask, no counters",
        counts::uncounted(&rt, alloc),
    );
    held &= tell(
        &rt,
        "Bench::edit, give, settle, with counters",
        counts::kept(&rt, alloc),
    );
    held &= tell(&rt, "12.1, Bench::settle", examples::settled(&rt, alloc));
    held &= tell(&rt, "12.2, Bench::edit", examples::edited(alloc));
    held &= tell(&rt, "12.3, run", examples::answered(&rt, alloc));
    held &= tell(&rt, "12.3, open, split", passes::opened(alloc));
    held &= tell(
        &rt,
        "Pass::edit, ask, look, project",
        passes::used(&rt, alloc),
    );
    held &= tell(&rt, "Pass::claim, give", passes::given(&rt, alloc));
    held &= tell(&rt, "run", runs::answered(&rt, alloc));
    held &= tell(&rt, "serve", runs::served(&rt, alloc, &["m.toml"]));
    held &= tell(&rt, "settle_wave", workers::waved(&rt, alloc));
    held &= tell(&rt, "work", workers::works(&rt, alloc));
    held &= tell(
        &rt,
        "serve with a worker",
        runs::served(&rt, alloc, &["m.toml", "--workers", "1"]),
    );
    ExitCode::from(u8::from(!held))
}

/// Says whether a call held, and gives it.
fn tell<R: Print>(rt: &R, name: &str, held: bool) -> bool {
    let word = if held { "held" } else { "BROKE" };
    println!(rt; "{name}: {word}").is_ok() && held
}
