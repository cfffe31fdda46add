// The agency's published values against ours. They are printed to 0.1 nT, so a listed strength may
// lie 0.05 nT off its own number; ours may lie 0.05 nT off that number too.
use crate::answer::{Answer, Component};
use synthesis::Xyz;

const ALLOWED_NT: f32 = 0.1;

fn far(ours: f32, listed: f32) -> bool {
    float32::outside(ours - listed, -ALLOWED_NT, ALLOWED_NT)
}

// The first component that lies too far off.
fn first_far(ours: Xyz, listed: Xyz) -> Option<Component> {
    if far(ours.x, listed.x) {
        Some(Component::X)
    } else if far(ours.y, listed.y) {
        Some(Component::Y)
    } else if far(ours.z, listed.z) {
        Some(Component::Z)
    } else {
        None
    }
}

pub fn compared(ours: Xyz, listed: Xyz) -> Answer {
    match first_far(ours, listed) {
        None => Answer::Within,
        Some(component) => Answer::Beyond(component),
    }
}
