//! What a studio opens with.
use mix_base::Limits;
use mix_model::Collection;

/// What a studio opens with.
#[derive(Drop)]
pub struct Setup {
    pub collection: Collection,
    pub limits: Limits,
}
