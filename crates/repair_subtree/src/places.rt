// Places of a stage.
ghost use Rattle.repair_nodes.specs.Stage.{Rooted};

// A slot's level, the number of slots of that level, and the slot's index in the stage. The slot and all below it are inside a stage of the full edition.
#[derive(Clone, Copy)]
pub struct Place {
    pub level: u32,
    pub width: usize,
    pub index: usize,
    pub ghost rooted: { Rooted 16383 level width index },
}

impl Place {
    ghost use Rattle.std.specs.Prelude.{◌<◌};
    ghost use Rattle.repair_subtree.specs.Subtree.{FirstBelow, SecondBelow};

    // The same slot of the level below, and the other one.
    pub fn first(self) -> Place
        requires { 0 < self.level }
        ensures { FirstBelow self.level self.width self.index result }
    {
        Place {
            level: self.level - 1,
            width: 2 * self.width,
            index: self.index + self.width,
        }
    }

    pub fn second(self) -> Place
        requires { 0 < self.level }
        ensures { SecondBelow self.level self.width self.index result }
    {
        Place {
            level: self.level - 1,
            width: 2 * self.width,
            index: self.index + 2 * self.width,
        }
    }
}
