//! The public constants of the libraries, each behind its name.
use crate::kinds::named;
use crate::line::Words;
use crate::shown::AnswerLine;
use crate::stop::CallStop;
use gtpv2_ie::{cause_value, element_type, interface};

/// A name and its number.
type Named = (&'static str, u64);

/// The constants of a group.
pub fn constants(words: &mut Words<'_>, line: &mut AnswerLine) -> Result<(), CallStop> {
    for (name, number) in named(&GROUPS, words.word())? {
        line.word(name);
        line.shown(number);
    }
    Ok(())
}

const GROUPS: [(&str, &[Named]); 9] = [
    ("users", &USERS),
    ("packets", &PACKETS),
    ("tunnels", &TUNNELS),
    ("causes", &CAUSES),
    ("elements", &ELEMENTS),
    ("interfaces", &INTERFACES),
    ("messages", &MESSAGES),
    ("filters", &FILTERS),
    ("charges", &CHARGES),
];

const USERS: [Named; 6] = [
    ("LAST_SLOT", pc_base::LAST_SLOT as u64),
    ("LAST_BEARER", pc_base::LAST_BEARER as u64),
    ("LAST_MOMENT", pc_base::LAST_MOMENT),
    ("GATEWAY_ADDR", pc_base::GATEWAY_ADDR.0 as u64),
    ("FIRST_ADDR", pc_base::FIRST_ADDR as u64),
    ("LAST_ADDR", pc_base::LAST_ADDR as u64),
];

const PACKETS: [Named; 8] = [
    ("VERSION", ipv4_packet::VERSION as u64),
    ("MINIMUM_WORDS", ipv4_packet::MINIMUM_WORDS as u64),
    ("MINIMUM_LEN", ipv4_packet::MINIMUM_LEN as u64),
    ("TCP", ipv4_packet::TCP as u64),
    ("UDP", ipv4_packet::UDP as u64),
    ("ESP", ipv4_packet::ESP as u64),
    ("AH", ipv4_packet::AH as u64),
    ("SCTP", ipv4_packet::SCTP as u64),
];

const TUNNELS: [Named; 3] = [
    ("VERSION", gtpu_codec::VERSION as u64),
    ("MANDATORY_LEN", gtpu_codec::MANDATORY_LEN as u64),
    ("OPTIONS_LEN", gtpu_codec::OPTIONS_LEN as u64),
];

const CAUSES: [Named; 8] = [
    ("REQUEST_ACCEPTED", cause_value::REQUEST_ACCEPTED as u64),
    (
        "NEW_PDN_TYPE_DUE_TO_NETWORK_PREFERENCE",
        cause_value::NEW_PDN_TYPE_DUE_TO_NETWORK_PREFERENCE as u64,
    ),
    ("CONTEXT_NOT_FOUND", cause_value::CONTEXT_NOT_FOUND as u64),
    (
        "MANDATORY_IE_INCORRECT",
        cause_value::MANDATORY_IE_INCORRECT as u64,
    ),
    (
        "MANDATORY_IE_MISSING",
        cause_value::MANDATORY_IE_MISSING as u64,
    ),
    (
        "PREFERRED_PDN_TYPE_NOT_SUPPORTED",
        cause_value::PREFERRED_PDN_TYPE_NOT_SUPPORTED as u64,
    ),
    (
        "ALL_DYNAMIC_ADDRESSES_ARE_OCCUPIED",
        cause_value::ALL_DYNAMIC_ADDRESSES_ARE_OCCUPIED as u64,
    ),
    ("REQUEST_REJECTED", cause_value::REQUEST_REJECTED as u64),
];

const ELEMENTS: [Named; 13] = [
    ("IMSI", element_type::IMSI as u64),
    ("CAUSE", element_type::CAUSE as u64),
    ("RECOVERY", element_type::RECOVERY as u64),
    ("APN", element_type::APN as u64),
    ("AMBR", element_type::AMBR as u64),
    ("EBI", element_type::EBI as u64),
    ("PAA", element_type::PAA as u64),
    ("BEARER_QOS", element_type::BEARER_QOS as u64),
    ("RAT_TYPE", element_type::RAT_TYPE as u64),
    ("BEARER_TFT", element_type::BEARER_TFT as u64),
    ("F_TEID", element_type::F_TEID as u64),
    ("BEARER_CONTEXT", element_type::BEARER_CONTEXT as u64),
    ("PDN_TYPE", element_type::PDN_TYPE as u64),
];

const INTERFACES: [Named; 4] = [
    ("S1_U_ENODEB", interface::S1_U_ENODEB as u64),
    ("S1_U_SGW", interface::S1_U_SGW as u64),
    ("S11_MME", interface::S11_MME as u64),
    ("S11_SGW", interface::S11_SGW as u64),
];

const MESSAGES: [Named; 18] = [
    ("ECHO_REQUEST", gtpv2_msg::ECHO_REQUEST as u64),
    ("ECHO_RESPONSE", gtpv2_msg::ECHO_RESPONSE as u64),
    (
        "CREATE_SESSION_REQUEST",
        gtpv2_msg::CREATE_SESSION_REQUEST as u64,
    ),
    (
        "CREATE_SESSION_RESPONSE",
        gtpv2_msg::CREATE_SESSION_RESPONSE as u64,
    ),
    (
        "MODIFY_BEARER_REQUEST",
        gtpv2_msg::MODIFY_BEARER_REQUEST as u64,
    ),
    (
        "MODIFY_BEARER_RESPONSE",
        gtpv2_msg::MODIFY_BEARER_RESPONSE as u64,
    ),
    (
        "DELETE_SESSION_REQUEST",
        gtpv2_msg::DELETE_SESSION_REQUEST as u64,
    ),
    (
        "DELETE_SESSION_RESPONSE",
        gtpv2_msg::DELETE_SESSION_RESPONSE as u64,
    ),
    (
        "CREATE_BEARER_REQUEST",
        gtpv2_msg::CREATE_BEARER_REQUEST as u64,
    ),
    (
        "CREATE_BEARER_RESPONSE",
        gtpv2_msg::CREATE_BEARER_RESPONSE as u64,
    ),
    (
        "UPDATE_BEARER_REQUEST",
        gtpv2_msg::UPDATE_BEARER_REQUEST as u64,
    ),
    (
        "UPDATE_BEARER_RESPONSE",
        gtpv2_msg::UPDATE_BEARER_RESPONSE as u64,
    ),
    (
        "DELETE_BEARER_REQUEST",
        gtpv2_msg::DELETE_BEARER_REQUEST as u64,
    ),
    (
        "DELETE_BEARER_RESPONSE",
        gtpv2_msg::DELETE_BEARER_RESPONSE as u64,
    ),
    (
        "RELEASE_ACCESS_BEARERS_REQUEST",
        gtpv2_msg::RELEASE_ACCESS_BEARERS_REQUEST as u64,
    ),
    (
        "RELEASE_ACCESS_BEARERS_RESPONSE",
        gtpv2_msg::RELEASE_ACCESS_BEARERS_RESPONSE as u64,
    ),
    (
        "DOWNLINK_DATA_NOTIFICATION",
        gtpv2_msg::DOWNLINK_DATA_NOTIFICATION as u64,
    ),
    (
        "DOWNLINK_DATA_NOTIFICATION_ACKNOWLEDGE",
        gtpv2_msg::DOWNLINK_DATA_NOTIFICATION_ACKNOWLEDGE as u64,
    ),
];

const FILTERS: [Named; 19] = [
    ("REMOTE_ADDRESS", tft_codec::REMOTE_ADDRESS as u64),
    ("LOCAL_ADDRESS", tft_codec::LOCAL_ADDRESS as u64),
    ("PROTOCOL", tft_codec::PROTOCOL as u64),
    ("LOCAL_PORT", tft_codec::LOCAL_PORT as u64),
    ("LOCAL_PORT_RANGE", tft_codec::LOCAL_PORT_RANGE as u64),
    ("REMOTE_PORT", tft_codec::REMOTE_PORT as u64),
    ("REMOTE_PORT_RANGE", tft_codec::REMOTE_PORT_RANGE as u64),
    (
        "SECURITY_PARAMETER_INDEX",
        tft_codec::SECURITY_PARAMETER_INDEX as u64,
    ),
    ("TYPE_OF_SERVICE", tft_codec::TYPE_OF_SERVICE as u64),
    ("BEFORE_RELEASE_7", tft_codec::BEFORE_RELEASE_7 as u64),
    ("DOWNLINK_ONLY", tft_codec::DOWNLINK_ONLY as u64),
    ("UPLINK_ONLY", tft_codec::UPLINK_ONLY as u64),
    ("BIDIRECTIONAL", tft_codec::BIDIRECTIONAL as u64),
    ("CREATE_TFT", tft_codec::CREATE_TFT as u64),
    ("DELETE_TFT", tft_codec::DELETE_TFT as u64),
    ("ADD_FILTERS", tft_codec::ADD_FILTERS as u64),
    ("REPLACE_FILTERS", tft_codec::REPLACE_FILTERS as u64),
    ("DELETE_FILTERS", tft_codec::DELETE_FILTERS as u64),
    ("NO_OPERATION", tft_codec::NO_OPERATION as u64),
];

const CHARGES: [Named; 1] = [("VOLUME_OCTETS", charging_book::VOLUME_OCTETS)];
