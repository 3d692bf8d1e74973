// A level as it is read.
use arm::Arm;
use arrayvec::ArrayVec;
use card::Card;
use card_checker::CardWall;
use lines::calls::CallLine;
use lines::header::Header;
use walls::Wall;

#[derive(Drop)]
pub struct Level<E, W> {
    pub header: Header,
    pub walls: ArrayVec<W, 64>,
    pub calls: ArrayVec<CallLine<E>, 512>,
}

// A level of either kind.
#[derive(Drop)]
pub enum AnyLevel {
    Arms(Level<Arm, Wall>),
    Cards(Level<Card, CardWall>),
}
