// The refusal table, on examples.
use refusals::{Reason, Refusal, Station};

#[test]
fn a_refusal_names_its_station_and_its_number(rt: HostRuntime) {
    let refusal = Refusal::at(Station::Place, Reason::Limit);
    assert_eq!(rt; refusal.station.name(), "place");
    assert_eq!(rt; refusal.number(), 23);
    assert_eq!(rt; refusal.bit, 0);
}
