// A classifier that looks at its rules one after the other, by falling priority and then by rising id.
use super::store::Store;

mod methods;

#[derive(Drop)]
pub struct Linear {
    store: Store,
}
