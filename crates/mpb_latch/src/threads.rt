//! Threads may share a latch by reference, and a seat may move from one to another.

use crate::latch::Latch;
use crate::seat::{ColSeat, DevSeat};

fn shared<T: Sync>(_value: &T) {}

fn moved<T: Send>(value: T) -> T {
    value
}

fn latch_is_shared(latch: &Latch) {
    shared(latch);
}

fn latch_is_moved(latch: Latch) -> Latch {
    moved(latch)
}

fn device_seat_is_moved(seat: DevSeat) -> DevSeat {
    moved(seat)
}

fn collector_seat_is_moved(seat: ColSeat) -> ColSeat {
    moved(seat)
}
