ghost use Rattle.std.specs.Prelude.{◌≡◌};
ghost use Rattle.tri_base.specs.Legs.{left_of, right_of, leg_part, neighbour, opposite, placed};

/// One of the three main processors.
#[derive(Clone, Copy, Debug, PartialEq, Eq)]
pub enum Leg {
    /// Leg A: its left neighbour is C, its right neighbour is B.
    A,
    /// Leg B: its left neighbour is A, its right neighbour is C.
    B,
    /// Leg C: its left neighbour is B, its right neighbour is A.
    C,
}

/// A side of a leg, towards one of its neighbours.
#[derive(Clone, Copy, Debug, PartialEq, Eq)]
pub enum Side {
    /// Towards the left neighbour.
    Left,
    /// Towards the right neighbour.
    Right,
}

/// One value for each leg.
#[derive(Clone, Copy, Debug, PartialEq, Eq, Drop)]
pub struct Triple<T> {
    /// The value of leg A.
    pub a: T,
    /// The value of leg B.
    pub b: T,
    /// The value of leg C.
    pub c: T,
}

impl Leg {
    /// The left neighbour. What a leg puts on its left, that neighbour takes from its right.
    pub fn left(self) -> Leg
        ensures neighbour { result ≡ left_of self }
        ensures back { right_of result ≡ self }
    {
        match self {
            Leg::A => Leg::C,
            Leg::B => Leg::A,
            Leg::C => Leg::B,
        }
    }

    /// The right neighbour. What a leg puts on its right, that neighbour takes from its left.
    pub fn right(self) -> Leg
        ensures neighbour { result ≡ right_of self }
        ensures back { left_of result ≡ self }
    {
        match self {
            Leg::A => Leg::B,
            Leg::B => Leg::C,
            Leg::C => Leg::A,
        }
    }

    /// The neighbour on a side.
    pub fn neighbour(self, side: Side) -> Leg
        ensures { result ≡ neighbour self side }
    {
        match side {
            Side::Left => self.left(),
            Side::Right => self.right(),
        }
    }
}

impl Side {
    /// The side on which a neighbour puts what a leg takes from this side.
    pub fn opposite(self) -> Side
        ensures { result ≡ opposite self }
    {
        match self {
            Side::Left => Side::Right,
            Side::Right => Side::Left,
        }
    }
}

impl<T> Triple<T> {
    /// What a leg has of its own, of its left and of its right neighbour, each in its leg's place.
    pub fn placed(leg: Leg, own: T, left: T, right: T) -> Triple<T>
        ensures { result ≡ placed leg own left right }
    {
        match leg {
            Leg::A => Triple {
                a: own,
                b: right,
                c: left,
            },
            Leg::B => Triple {
                a: left,
                b: own,
                c: right,
            },
            Leg::C => Triple {
                a: right,
                b: left,
                c: own,
            },
        }
    }

    /// The value of a leg.
    pub fn at(&self, leg: Leg) -> &T
        ensures { result.now ≡ leg_part self.now leg }
    {
        match leg {
            Leg::A => &self.a,
            Leg::B => &self.b,
            Leg::C => &self.c,
        }
    }
}
