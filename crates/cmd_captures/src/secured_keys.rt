//! What `show` prints of a secured frame after its packet.

use crate::field::Field;
use crate::text::Text;
use cap_records::SecuredFacts;
use cap_records::messages::HeaderInfo;
use serde::Serialize;
use std::alloc::AllocError;

/// What is printed of a signed packet: its keys in this order.
#[derive(Clone, Copy, Serialize)]
struct InfoKeys {
    psid: u64,
    #[serde(skip_serializing_if = "Option::is_none")]
    generated: Option<u64>,
}

impl InfoKeys {
    fn of(info: &HeaderInfo) -> InfoKeys {
        InfoKeys {
            psid: info.psid,
            generated: info.generated,
        }
    }
}

/// What is printed of a secured frame, whose message has no header info if its data is unsecured.
#[derive(Clone, Copy, Serialize)]
pub(crate) struct SecuredKeys {
    #[serde(flatten)]
    info: Option<InfoKeys>,
    secured: bool,
}

impl SecuredKeys {
    /// Returns what is printed of a secured frame about which this is known.
    pub(crate) fn of(facts: &SecuredFacts) -> SecuredKeys {
        SecuredKeys {
            info: facts.info.map(|info| InfoKeys::of(&info)),
            secured: true,
        }
    }

    /// Adds it to a text.
    pub(crate) fn add_to(&self, text: &mut Text) -> Result<(), AllocError> {
        let Some(info) = &self.info else {
            return text.word(" unsigned");
        };
        text.number(" signed ", info.psid)?;
        match info.generated {
            Some(time) => text.number(" ", time),
            None => text.word(" -"),
        }
    }

    /// Adds the value of a key to a text. Adds nothing if the frame has none.
    pub(crate) fn add_value_to(&self, field: Field, text: &mut Text) -> Result<(), AllocError> {
        match (field, &self.info) {
            (Field::Secured, _) => text.word("true"),
            (Field::Psid, Some(info)) => text.number("", info.psid),
            (Field::Generated, Some(info)) => match info.generated {
                Some(time) => text.number("", time),
                None => Ok(()),
            },
            _ => Ok(()),
        }
    }
}
