// What a case is of.
ghost use Rattle.std.specs.Prelude.{◌≡◌, IfSome};
ghost use Rattle.replay_vectors.specs.Tags.{number_of};

// What a case is of. Its number is the tag that the sample has.
#[derive(Clone, Copy, PartialEq, Eq)]
pub enum Tag {
    Points = 1,
    PointsState = 2,
    Layers = 3,
    LayersState = 4,
    Items = 5,
    Instances = 6,
    Seeds = 7,
    Fitness = 8,
    Overlaps = 9,
    Unplaced = 10,
    Check = 11,
    Load = 12,
    Measures = 13,
    Root = 14,
    Spot = 16,
}

impl Tag {
    // The tag of this number, if there is one.
    pub fn of(number: u32) -> Option<Tag>
        ensures { IfSome result (λ t. number_of t ≡ number) }
    {
        let tag = match number {
            1 => Tag::Points,
            2 => Tag::PointsState,
            3 => Tag::Layers,
            4 => Tag::LayersState,
            5 => Tag::Items,
            6 => Tag::Instances,
            7 => Tag::Seeds,
            8 => Tag::Fitness,
            9 => Tag::Overlaps,
            10 => Tag::Unplaced,
            11 => Tag::Check,
            12 => Tag::Load,
            13 => Tag::Measures,
            14 => Tag::Root,
            16 => Tag::Spot,
            _ => return None,
        };
        Some(tag)
    }
}
