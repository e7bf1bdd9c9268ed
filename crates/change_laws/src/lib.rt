//! What a made change leaves of the server's state: laws.
#![tactic(auto)]

mod laws;

pub use laws::{
    areas_are_counted, breakpoints_follow, breakpoints_stay, calls_stay_but_for_loads_and_deletes,
    changes_keep_numbers, changes_keep_sound, decided_commands_stay, deletes_reach_nothing,
    dropped_areas_are_retired, images_stay, loads_are_reached, loads_leave_the_rest,
    no_area_is_forgotten, no_code_is_forgotten, used_areas_are_known, used_areas_stood_or_came,
};
