// Poses of the example.
use arm::Arm;

// A pose that turns the first two joints alone.
pub fn pose_of(first: u16, second: u16) -> Arm {
    Arm {
        angles: [first, second, 0, 0, 0, 0],
    }
}
