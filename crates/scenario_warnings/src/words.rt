// What is said of each warning.

pub(crate) const UNUSED: &str = "no process has a step with it";

pub(crate) const COMMUTING: &str =
    "they touch the same values, and the order tells, but no pair of 'conflicts' names them; under the printed order of the steps the values may then be others";

pub(crate) const SAME_PROCESS: &str = "an earlier process has this name";

pub(crate) const HOLD_OF_NOTHING: &str =
    "it holds a seat with 0, which leaves the seat free; hold it with a number other than 0";

pub(crate) const NEGATIVE_TAKE: &str =
    "it takes a negative amount, which is an 'add' that can be barred; add the amount, or take a positive one";
