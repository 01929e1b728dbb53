use cap_batch_msgs::BatchBody;
use cap_leaf::Header;
use cap_mgmt_msgs::MgmtBody;
use cap_sale_msgs::SaleBody;

/// What a message says.
#[derive(Clone, Debug, Drop)]
pub enum Body {
    Sale(SaleBody),
    Batch(BatchBody),
    Management(MgmtBody),
}

/// A message between a terminal and its host.
#[derive(Clone, Debug, Drop)]
pub struct Message {
    pub header: Header,
    pub body: Body,
}
