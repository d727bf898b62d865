//! Threads may share a bus by reference, and a seat may move from one to another.

use crate::bus::Bus;
use crate::seat::BusSeat;

fn shared<T: Sync>(_value: &T) {}

fn moved<T: Send>(value: T) -> T {
    value
}

fn bus_is_shared(bus: &Bus) {
    shared(bus);
}

fn bus_is_moved(bus: Bus) -> Bus {
    moved(bus)
}

fn seat_is_moved(seat: BusSeat) -> BusSeat {
    moved(seat)
}
