// The frames of a walk, and why it ended.
ghost use Rattle.std.specs.Prelude.{◌≡◌, [], ◌≤◌};
ghost use Rattle.walked.specs.Endings.{ending_number};

use format::Question;
use walk::Frame;

// Why a walk ended.
#[derive(Clone, Copy)]
pub enum Ending {
    // the return address is undefined
    Undefined = 1,
    // no function holds the address
    Unheld = 2,
    // a 65th frame would follow
    TooMany = 3,
}

impl Ending {
    // What C reads.
    pub fn number(self) -> u64
        ensures { result ≡ ending_number self }
    {
        self as u64
    }
}

// The most frames of a walk.
pub(crate) const MOST_FRAMES: usize = 64;

// The frames that a walk found, up to 64, and why it ended, or by which question it was refused.
// Kept: an array and how many of it are used, since `Walked` is `Copy`, which an `ArrayVec` is not.
#[derive(Clone, Copy)]
pub struct Walked {
    pub frames: [Frame; MOST_FRAMES],
    pub count: usize,
    pub ending: Result<Ending, Question>,
    ghost few: { count ≤ 64 },
}

impl Walked {
    ghost use Rattle.walked.specs.Standing.{frames_of};

    // Refused in front of every frame.
    pub fn refused(question: Question) -> Walked
        ensures { (frames_of result ≡ []) × (result.ending ≡ Err question) }
    {
        Walked {
            frames: [Frame::default(); MOST_FRAMES],
            count: 0,
            ending: Err(question),
        }
    }
}
