//! Running times that are rounded up to a whole tenth.

ghost use Rattle.std.specs.Prelude.{◌≡◌};

use rail_base::{Name, TrainKind};
use rail_block::{clear_time, run_time};

fn kind(name: Name, length: u32, speed: u32) -> TrainKind
    ensures length { result.length ≡ length }
    ensures speed { result.speed ≡ speed }
{
    TrainKind {
        name,
        length,
        speed,
        start: 100,
        stop: 50,
    }
}

#[test]
fn takes_the_lesser_speed_and_rounds_up(rt: HostRuntime) {
    assert!(rt; run_times() == Some([1, 400, 515, 30, 400]));
}

fn run_times() -> Option<[u64; 5]> {
    let name = Name::read(b"R")?;
    let fast = kind(name, 90, 300);
    let slow = kind(name, 90, 90);
    Some([
        run_time(&fast, 1, 300),
        run_time(&slow, 1000, 90),
        run_time(&slow, 1000, 70),
        run_time(&slow, 50, 60),
        run_time(&slow, 1000, 160),
    ])
}

#[test]
fn clears_by_the_length_of_the_train(rt: HostRuntime) {
    assert!(rt; clear_times() == Some([36, 400, 36, 47]));
}

fn clear_times() -> Option<[u64; 4]> {
    let name = Name::read(b"R")?;
    let short = kind(name, 90, 90);
    let long = kind(name, 1000, 90);
    Some([
        clear_time(&short, 90),
        clear_time(&long, 90),
        clear_time(&short, 160),
        clear_time(&short, 70),
    ])
}
