// The words that the planner is started with: an engine, then perhaps a number to consider, then perhaps `list`.

// The two placers.
#[derive(Clone, Copy, Debug, PartialEq, Eq, Hash)]
pub(crate) enum Engine {
    Points,
    Layers,
}

impl Engine {
    fn named(word: &[u8]) -> Option<Engine> {
        if word == b"points".as_slice() {
            return Some(Engine::Points);
        }
        if word == b"layers".as_slice() {
            return Some(Engine::Layers);
        }
        None
    }
}

// What is asked.
#[derive(Clone, Copy, Debug, PartialEq, Eq, Hash)]
pub(crate) struct Asked {
    pub(crate) engine: Engine,
    pub(crate) consider: u64,
    pub(crate) list: bool,
}

fn is_list(word: &[u8]) -> bool {
    word == b"list".as_slice()
}

// What the words ask, and none where they are not understood. Without a number, all boxes are considered.
pub(crate) fn asked_by(words: [Option<&[u8]>; 4]) -> Option<Asked> {
    let [Some(engine), second, third, None] = words else {
        return None;
    };
    let engine = Engine::named(engine)?;
    let all = domain::MOST_BOXES as u64;
    let (consider, list) = match (second, third) {
        (None, None) => (all, false),
        (Some(word), None) if is_list(word) => (all, true),
        (Some(word), None) => (show_number::number_of(word)?, false),
        (Some(word), Some(last)) if is_list(last) => (show_number::number_of(word)?, true),
        _ => return None,
    };
    Some(Asked {
        engine,
        consider,
        list,
    })
}
