//! The values that threads share.

use fb_certificate::{Certificate, Inputs};
use fb_types::{Angles, Column, Crac, Fate, Grid, Half, Items, Multipliers, Text};
use glsk_keys::Keys;
use grid_state::State;
use run_settings::{Reduction, Settings};

fn is_shared<T: Send + Sync>() {}

#[test]
fn data_is_shared(_rt: HostRuntime) {
    is_shared::<Grid>();
    is_shared::<Crac>();
    is_shared::<Settings>();
    is_shared::<Items<Reduction>>();
    is_shared::<Keys>();
    is_shared::<Column>();
    is_shared::<State>();
    is_shared::<Angles>();
    is_shared::<Half>();
    is_shared::<Multipliers>();
    is_shared::<Fate>();
    is_shared::<Text>();
    is_shared::<Inputs>();
    is_shared::<Certificate>();
}
